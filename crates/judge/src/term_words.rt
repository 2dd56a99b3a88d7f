// What else there is of a row: one number for each. Its hexadecimal digits are two of the first child that may be missed, two of the next such sibling,
// how many codes the row has, two of where they begin, three of the parent, and five of the limit.
ghost use Rattle.std.specs.Prelude.{◌<◌, ◌≡◌, length};
ghost use Rattle.guide.specs.Pricat.{pricat20d, pricat20c};
ghost use Rattle.guide.specs.Editions.{guide_of};
ghost use Rattle.judge.specs.workers.Rows.{term_word};

use guide::Edition;

fn terms_20d(n: usize) -> u64
    requires { n < 28 }
    ensures { result ≡ term_word pricat20d n }
{
    match n {
        0 => 0x01_00_0_00_3e8_00000, // the message
        1 => 0x00_02_0_00_000_00001, // UNH
        2 => 0x00_04_0_00_000_00001, // BGM
        3 => 0x00_04_1_00_000_00001, // DTM/492
        4 => 0x00_08_1_01_000_00001, // DTM/137
        5 => 0x00_08_1_02_000_00001, // DTM/157
        6 => 0x00_08_1_03_000_00001, // RFF/ACW
        7 => 0x00_08_1_04_000_00001, // RFF/Z56
        8 => 0x00_09_1_05_000_00001, // RFF/Z13
        9 => 0x00_0a_1_06_000_00001, // NAD/MR
        10 => 0x00_1a_1_07_000_00001, // NAD/MS
        11 => 0x00_00_0_08_00a_00001, // LOC
        12 => 0x0d_00_0_08_00a_00001, // CTA
        13 => 0x00_00_0_08_00c_00005, // COM
        14 => 0x00_1a_0_08_000_00001, // CUX
        15 => 0x10_1a_1_08_000_00001, // PGI/9
        16 => 0x00_00_0_09_00f_f423f, // LIN
        17 => 0x00_00_0_09_010_00001, // PIA
        18 => 0x00_00_0_09_010_00001, // IMD
        19 => 0x15_00_0_09_010_00064, // PRI
        20 => 0x00_15_0_09_013_00001, // RNG
        21 => 0x00_1b_1_09_013_00001, // DTM/163
        22 => 0x17_1a_1_0a_000_00001, // PGI/Z01
        23 => 0x18_00_0_0b_016_f423f, // LIN
        24 => 0x00_00_0_0b_017_00001, // PRI
        25 => 0x00_00_0_0b_018_00001, // RNG
        26 => 0x00_00_0_0b_000_00001, // UNT
        27 => 0x00_00_1_0b_013_00001, // DTM/164
        _ => 0,
    }
}

fn terms_20c(n: usize) -> u64
    requires { n < 26 }
    ensures { result ≡ term_word pricat20c n }
{
    match n {
        0 => 0x01_00_0_00_3e8_00000, // the message
        1 => 0x00_02_0_00_000_00001, // UNH
        2 => 0x00_04_0_00_000_00001, // BGM
        3 => 0x00_04_1_00_000_00001, // DTM/492
        4 => 0x00_07_1_01_000_00001, // DTM/137
        5 => 0x00_07_1_02_000_00001, // DTM/157
        6 => 0x00_07_1_03_000_00001, // RFF/ACW
        7 => 0x00_08_1_04_000_00001, // RFF/Z13
        8 => 0x00_09_1_05_000_00001, // NAD/MR
        9 => 0x00_18_1_06_000_00001, // NAD/MS
        10 => 0x00_00_0_07_009_00001, // LOC
        11 => 0x0c_00_0_07_009_00001, // CTA
        12 => 0x00_00_0_07_00b_00005, // COM
        13 => 0x00_18_0_07_000_00001, // CUX
        14 => 0x0f_18_1_07_000_00001, // PGI/9
        15 => 0x00_00_0_08_00e_f423f, // LIN
        16 => 0x00_00_0_08_00f_00001, // PIA
        17 => 0x00_00_0_08_00f_00001, // IMD
        18 => 0x13_00_0_08_00f_00001, // PRI
        19 => 0x00_19_1_08_012_00001, // DTM/163
        20 => 0x15_18_1_09_000_00001, // PGI/Z01
        21 => 0x16_00_0_0a_014_f423f, // LIN
        22 => 0x00_00_0_0a_015_00001, // PRI
        23 => 0x00_00_0_0a_016_00001, // RNG
        24 => 0x00_00_0_0a_000_00001, // UNT
        25 => 0x00_00_1_0a_012_00001, // DTM/164
        _ => 0,
    }
}

// The terms of row n.
pub(crate) fn terms(edition: Edition, n: usize) -> u64
    requires { n < length (guide_of edition) }
    ensures { result ≡ term_word (guide_of edition) n }
{
    match edition {
        Edition::D => terms_20d(n),
        Edition::C => terms_20c(n),
    }
}
