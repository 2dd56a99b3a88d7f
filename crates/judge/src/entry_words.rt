// What begins with a node, and what must stand before it: one number for each row, so that one load reads both. Its upper eight hexadecimal digits are
// the set of the node's children, its lower eight the set of the nodes that it must come behind; bit n is row n.
ghost use Rattle.std.specs.Prelude.{◌<◌, ◌≡◌, length};
ghost use Rattle.guide.specs.Pricat.{pricat20d, pricat20c};
ghost use Rattle.guide.specs.Editions.{guide_of};
ghost use Rattle.judge.specs.workers.Sets.{entry_word};

use guide::Edition;

fn entry_20d(n: usize) -> u64
    requires { n < 28 }
    ensures { result ≡ entry_word pricat20d n }
{
    match n {
        0 => 0x0440c7fe_00000000, // the message
        1 => 0x00000000_0bbf3800, // UNH
        2 => 0x00000000_0bbf3802, // BGM
        3 => 0x00000000_0bbf3806, // DTM/492
        4 => 0x00000000_0bbf3806, // DTM/137
        5 => 0x00000000_0bbf3806, // DTM/157
        6 => 0x00000000_0bbf383e, // RFF/ACW
        7 => 0x00000000_0bbf383e, // RFF/Z56
        8 => 0x00000000_0bbf383e, // RFF/Z13
        9 => 0x00000000_0bbf39fe, // NAD/MR
        10 => 0x00001800_0bbf39fe, // NAD/MS
        11 => 0x00000000_00002000, // LOC
        12 => 0x00002000_00002800, // CTA
        13 => 0x00000000_00000000, // COM
        14 => 0x00000000_0bbf3ffe, // CUX
        15 => 0x00010000_0bbf7ffe, // PGI/9
        16 => 0x000e0000_083e0000, // LIN
        17 => 0x00000000_08300000, // PIA
        18 => 0x00000000_08320000, // IMD
        19 => 0x08300000_08360000, // PRI
        20 => 0x00000000_00000000, // RNG
        21 => 0x00000000_00100000, // DTM/163
        22 => 0x00800000_0bbf7ffe, // PGI/Z01
        23 => 0x01000000_03000000, // LIN
        24 => 0x02000000_02000000, // PRI
        25 => 0x00000000_00000000, // RNG
        26 => 0x00000000_0bfffffe, // UNT
        27 => 0x00000000_00100000, // DTM/164
        _ => 0,
    }
}

fn entry_20c(n: usize) -> u64
    requires { n < 26 }
    ensures { result ≡ entry_word pricat20c n }
{
    match n {
        0 => 0x011063fe_00000000, // the message
        1 => 0x00000000_02ef9c00, // UNH
        2 => 0x00000000_02ef9c02, // BGM
        3 => 0x00000000_02ef9c06, // DTM/492
        4 => 0x00000000_02ef9c06, // DTM/137
        5 => 0x00000000_02ef9c06, // DTM/157
        6 => 0x00000000_02ef9c3e, // RFF/ACW
        7 => 0x00000000_02ef9c3e, // RFF/Z13
        8 => 0x00000000_02ef9cfe, // NAD/MR
        9 => 0x00000c00_02ef9cfe, // NAD/MS
        10 => 0x00000000_00001000, // LOC
        11 => 0x00001000_00001400, // CTA
        12 => 0x00000000_00000000, // COM
        13 => 0x00000000_02ef9ffe, // CUX
        14 => 0x00008000_02efbffe, // PGI/9
        15 => 0x00070000_020f0000, // LIN
        16 => 0x00000000_02080000, // PIA
        17 => 0x00000000_02090000, // IMD
        18 => 0x02080000_020b0000, // PRI
        19 => 0x00000000_00000000, // DTM/163
        20 => 0x00200000_02efbffe, // PGI/Z01
        21 => 0x00400000_00c00000, // LIN
        22 => 0x00800000_00800000, // PRI
        23 => 0x00000000_00000000, // RNG
        24 => 0x00000000_02fffffe, // UNT
        25 => 0x00000000_00000000, // DTM/164
        _ => 0,
    }
}

// What begins with row n, and what must stand before it.
pub(crate) fn entry(edition: Edition, n: usize) -> u64
    requires { n < length (guide_of edition) }
    ensures { result ≡ entry_word (guide_of edition) n }
{
    match edition {
        Edition::D => entry_20d(n),
        Edition::C => entry_20c(n),
    }
}
