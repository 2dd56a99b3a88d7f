// What can come after a node, and what may be missed then: one number for each row, so that one load reads both. Its upper eight hexadecimal digits are the
// set of the nodes that may be missed, its lower eight the set of those that can come; bit n is row n.
ghost use Rattle.std.specs.Prelude.{◌≡◌};
ghost use Rattle.guide.specs.Pricat.{pricat20d, pricat20c};
ghost use Rattle.guide.specs.Editions.{guide_of};
ghost use Rattle.judge.specs.workers.Sets.{after_word};

use guide::Edition;

fn after_20d(n: usize) -> u64
    ensures { result ≡ after_word pricat20d n }
{
    match n {
        0 => 0x04000716_0440c7fe, // the message
        1 => 0x04000716_0440c7fe, // UNH
        2 => 0x04000716_0440c7fc, // BGM
        3 => 0x04000716_0440c7f8, // DTM/492
        4 => 0x04000716_0440c7f8, // DTM/137
        5 => 0x04000716_0440c7f8, // DTM/157
        6 => 0x04000716_0440c7c0, // RFF/ACW
        7 => 0x04000716_0440c7c0, // RFF/Z56
        8 => 0x04000716_0440c7c0, // RFF/Z13
        9 => 0x04000716_0440c600, // NAD/MR
        10 => 0x04000716_0440de00, // NAD/MS
        11 => 0x04000716_0440de00, // LOC
        12 => 0x04002716_0440f600, // CTA
        13 => 0x04002716_0440f600, // COM
        14 => 0x04000716_0440c000, // CUX
        15 => 0x04010716_04418000, // PGI/9
        16 => 0x04010716_044f8000, // LIN
        17 => 0x04010716_044f8000, // PIA
        18 => 0x04010716_044d8000, // IMD
        19 => 0x0c210716_0c798000, // PRI
        20 => 0x0c210716_0c798000, // RNG
        21 => 0x0c210716_0c698000, // DTM/163
        22 => 0x04800716_04c08000, // PGI/Z01
        23 => 0x05800716_05c08000, // LIN
        24 => 0x05800716_07c08000, // PRI
        25 => 0x05800716_07c08000, // RNG
        26 => 0x04000716_04000000, // UNT
        27 => 0x0c210716_0c698000, // DTM/164
        _ => 0,
    }
}

fn after_20c(n: usize) -> u64
    ensures { result ≡ after_word pricat20c n }
{
    match n {
        0 => 0x01000396_011063fe, // the message
        1 => 0x01000396_011063fe, // UNH
        2 => 0x01000396_011063fc, // BGM
        3 => 0x01000396_011063f8, // DTM/492
        4 => 0x01000396_011063f8, // DTM/137
        5 => 0x01000396_011063f8, // DTM/157
        6 => 0x01000396_011063c0, // RFF/ACW
        7 => 0x01000396_011063c0, // RFF/Z13
        8 => 0x01000396_01106300, // NAD/MR
        9 => 0x01000396_01106f00, // NAD/MS
        10 => 0x01000396_01106f00, // LOC
        11 => 0x01001396_01107b00, // CTA
        12 => 0x01001396_01107b00, // COM
        13 => 0x01000396_01106000, // CUX
        14 => 0x01008396_0110c000, // PGI/9
        15 => 0x01008396_0117c000, // LIN
        16 => 0x01008396_0117c000, // PIA
        17 => 0x01008396_0116c000, // IMD
        18 => 0x03088396_031cc000, // PRI
        19 => 0x03088396_031cc000, // DTM/163
        20 => 0x01200396_01304000, // PGI/Z01
        21 => 0x01600396_01704000, // LIN
        22 => 0x01600396_01f04000, // PRI
        23 => 0x01600396_01f04000, // RNG
        24 => 0x01000396_01000000, // UNT
        25 => 0x03088396_031cc000, // DTM/164
        _ => 0,
    }
}

// What can come after row n, and what may be missed then: nothing past the table's end.
pub(crate) fn after(edition: Edition, n: usize) -> u64
    ensures { result ≡ after_word (guide_of edition) n }
{
    match edition {
        Edition::D => after_20d(n),
        Edition::C => after_20c(n),
    }
}
