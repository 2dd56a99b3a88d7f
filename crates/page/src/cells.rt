// The states of the pass over a segment without a fault: one number for each component of a page.
ghost use Rattle.std.specs.Prelude.{◌≡◌};
ghost use Rattle.guide.specs.Nodes.{node};
ghost use Rattle.guide.specs.Pricat.{pricat20d, pricat20c};
ghost use Rattle.guide.specs.Pages20d.{page_of};
ghost use Rattle.guide.specs.Pages20c.{page_of20c};
ghost use Rattle.guide.specs.Editions.{guide_of, pages_of};
ghost use Rattle.page.specs.workers.Cells.{cell_of, FirstWord};

use guide::Edition;

// The next state behind a component separator and behind an element separator, 8 bits each, where the component is filled, then both where it is empty; a bit
// each that the segment may end behind it, filled or empty; and the word of its row, with what is kept of its place instead of the status.
pub(crate) fn cell(s: usize) -> u64
    ensures { result ≡ cell_of s }
{
    match s {
        0 => 0x0,
        1 => 0xc4103400000002,
        2 => 0x8c0000000000003,
        3 => 0xc0103900000000,
        4 => 0xc4103c00000005,
        5 => 0x8c0000000000006,
        6 => 0xc0104100000000,
        7 => 0xc4104400000008,
        8 => 0x8c0000000000009,
        9 => 0xc0104900000000,
        10 => 0xc4104c0000000b,
        11 => 0x1180000100000000,
        12 => 0xc410500000000d,
        13 => 0x8c0000100000000,
        14 => 0xc410540000000f,
        15 => 0x170305900000000,
        16 => 0x8004000000000011,
        17 => 0xc0508d00000000,
        18 => 0xc410a000000013,
        19 => 0xc010a400000014,
        20 => 0xc010a900000000,
        21 => 0xc410ad00000000,
        22 => 0xc4111c00000017,
        23 => 0x3e0000100000018,
        24 => 0x200190000,
        25 => 0x2001a0000,
        26 => 0x2600003001b001b,
        27 => 0x200112300000000,
        28 => 0xc421300000001d,
        29 => 0x8c000000000001e,
        30 => 0xc0113900000000,
        31 => 0xc4113d00000000,
        32 => 0xc4114400000021,
        33 => 0x3e0000100000000,
        34 => 0x384000000002300,
        35 => 0x180100000000024,
        36 => 0xc0100400000025,
        37 => 0xc0100800000026,
        38 => 0x80100c00000027,
        39 => 0x180101100000000,
        40 => 0xc4106400002900,
        41 => 0x8c000000000002a,
        42 => 0x2b0000,
        43 => 0xc0306900000000,
        44 => 0xc4107400002d00,
        45 => 0x8c000000000002e,
        46 => 0x2f0000,
        47 => 0xc0307900000000,
        48 => 0xc4108400003100,
        49 => 0x8c0000100000000,
        50 => 0xc4108800003300,
        51 => 0x340000,
        52 => 0x4000000100000000,
        53 => 0xc410b800003600,
        54 => 0x8c0000000000037,
        55 => 0xc010bd00000000,
        56 => 0xc4112400003900,
        57 => 0x20021280000003a,
        58 => 0x4a000010000003b,
        59 => 0x4a0000300000000,
        60 => 0xc4114800003d00,
        61 => 0x200114c0000003e,
        62 => 0x4a000010000003f,
        63 => 0x4a0000300000000,
        64 => 0x1a4000000004100,
        65 => 0x380000100000000,
        66 => 0x384000000004300,
        67 => 0x180100000000044,
        68 => 0xc0100400000045,
        69 => 0xc0100800000046,
        70 => 0x80100c00000047,
        71 => 0x180115100000000,
        72 => 0xc420c000004900,
        73 => 0xc110c900004a00,
        74 => 0x448410f0061004b,
        75 => 0x2004c0000,
        76 => 0x2004d0000,
        77 => 0x4000000300000000,
        78 => 0xc420c000004f00,
        79 => 0xc110c900005000,
        80 => 0x448410e00640051,
        81 => 0x520000,
        82 => 0x530000,
        83 => 0x4000000100000000,
        84 => 0xc4701400005500,
        85 => 0x1180000100005600,
        86 => 0x800025f000000,
        87 => 0x1a4000000005800,
        88 => 0x59000000,
        89 => 0x8c800000000005a,
        90 => 0xc020b100000000,
        91 => 0x1a4000000005c00,
        92 => 0x5d000000,
        93 => 0x8c800000000005e,
        94 => 0xc0114100000000,
        95 => 0x260000000,
        96 => 0xc0103300000000,
        97 => 0x200620000,
        98 => 0x200630000,
        99 => 0x4000000300000000,
        100 => 0x200650000,
        101 => 0x200660000,
        102 => 0x4000000300000000,
        _ => 0,
    }
}

fn first_20d(n: usize) -> u64
    ensures { FirstWord (node pricat20d n).tag (page_of n) result }
{
    match n {
        0 => 0x2b5a5a5a_00000000,
        1 => 0x2b484e55_00000022,
        2 => 0x2b4d4742_00000054,
        3 => 0x2b4d5444_00000001,
        4 => 0x2b4d5444_00000004,
        5 => 0x2b4d5444_00000007,
        6 => 0x2b464652_0000000a,
        7 => 0x2b464652_0000000c,
        8 => 0x2b464652_0000000e,
        9 => 0x2b44414e_00000028,
        10 => 0x2b44414e_0000002c,
        11 => 0x2b434f4c_00000030,
        12 => 0x2b415443_00000032,
        13 => 0x2b4d4f43_00000010,
        14 => 0x2b585543_00000012,
        15 => 0x2b494750_00000015,
        16 => 0x2b4e494c_00000057,
        17 => 0x2b414950_00000035,
        18 => 0x2b444d49_00000048,
        19 => 0x2b495250_00000016,
        20 => 0x2b474e52_00000038,
        21 => 0x2b4d5444_0000001c,
        22 => 0x2b494750_0000001f,
        23 => 0x2b4e494c_0000005b,
        24 => 0x2b495250_00000020,
        25 => 0x2b474e52_0000003c,
        26 => 0x2b544e55_00000040,
        27 => 0x2b4d5444_0000001c,
        _ => 0x2b5a5a5a_00000000,
    }
}

fn first_20c(n: usize) -> u64
    ensures { FirstWord (node pricat20c n).tag (page_of20c n) result }
{
    match n {
        0 => 0x2b5a5a5a_00000000,
        1 => 0x2b484e55_00000042,
        2 => 0x2b4d4742_00000054,
        3 => 0x2b4d5444_00000001,
        4 => 0x2b4d5444_00000004,
        5 => 0x2b4d5444_00000007,
        6 => 0x2b464652_0000000a,
        7 => 0x2b464652_0000000e,
        8 => 0x2b44414e_00000028,
        9 => 0x2b44414e_0000002c,
        10 => 0x2b434f4c_00000030,
        11 => 0x2b415443_00000032,
        12 => 0x2b4d4f43_00000010,
        13 => 0x2b585543_00000012,
        14 => 0x2b494750_00000015,
        15 => 0x2b4e494c_00000057,
        16 => 0x2b414950_00000035,
        17 => 0x2b444d49_0000004e,
        18 => 0x2b495250_00000016,
        19 => 0x2b4d5444_0000001c,
        20 => 0x2b494750_0000001f,
        21 => 0x2b4e494c_0000005b,
        22 => 0x2b495250_00000020,
        23 => 0x2b474e52_0000003c,
        24 => 0x2b544e55_00000040,
        25 => 0x2b4d5444_0000001c,
        _ => 0x2b5a5a5a_00000000,
    }
}

// The state before the first component behind the tag of a node's page, in the lower 32 bits, and above it the first four bytes of a segment of the node
// as one number, the first the lowest: its tag and the usual element separator. A node without a page has the state 0, behind which nothing is told, and
// the tag ZZZ.
pub(crate) fn first_cell(edition: Edition, n: usize) -> u64
    ensures { FirstWord (node (guide_of edition) n).tag (pages_of edition n) result }
{
    match edition {
        Edition::D => first_20d(n),
        Edition::C => first_20c(n),
    }
}
