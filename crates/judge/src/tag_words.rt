// The tag of a row and its counter: one number for each row, so that one load reads them. Its hexadecimal digits are three of the counter and seven
// of the tag.
ghost use Rattle.std.specs.Prelude.{◌<◌, ◌≡◌, length};
ghost use Rattle.guide.specs.Pricat.{pricat20d, pricat20c};
ghost use Rattle.guide.specs.Editions.{guide_of};
ghost use Rattle.judge.specs.workers.Rows.{tag_word};

use guide::Edition;

fn tag_word_20d(n: usize) -> u64
    requires { n < 28 }
    ensures { result ≡ tag_word pricat20d n }
{
    match n {
        0 => 0x000_0000001, // the message
        1 => 0x00a_1484e55, // UNH
        2 => 0x014_14d4742, // BGM
        3 => 0x01e_14d5444, // DTM/492
        4 => 0x01e_14d5444, // DTM/137
        5 => 0x01e_14d5444, // DTM/157
        6 => 0x03c_1464652, // RFF/ACW
        7 => 0x03c_1464652, // RFF/Z56
        8 => 0x03c_1464652, // RFF/Z13
        9 => 0x05a_144414e, // NAD/MR
        10 => 0x05a_144414e, // NAD/MS
        11 => 0x06e_1434f4c, // LOC
        12 => 0x096_1415443, // CTA
        13 => 0x0aa_14d4f43, // COM
        14 => 0x0dc_1585543, // CUX
        15 => 0x24e_1494750, // PGI/9
        16 => 0x51e_14e494c, // LIN
        17 => 0x532_1414950, // PIA
        18 => 0x53c_1444d49, // IMD
        19 => 0x618_1495250, // PRI
        20 => 0x640_1474e52, // RNG
        21 => 0x64a_14d5444, // DTM/163
        22 => 0x24e_1494750, // PGI/Z01
        23 => 0x51e_14e494c, // LIN
        24 => 0x618_1495250, // PRI
        25 => 0x640_1474e52, // RNG
        26 => 0x960_1544e55, // UNT
        27 => 0x64a_14d5444, // DTM/164
        _ => 0,
    }
}

fn tag_word_20c(n: usize) -> u64
    requires { n < 26 }
    ensures { result ≡ tag_word pricat20c n }
{
    match n {
        0 => 0x000_0000001, // the message
        1 => 0x00a_1484e55, // UNH
        2 => 0x014_14d4742, // BGM
        3 => 0x01e_14d5444, // DTM/492
        4 => 0x01e_14d5444, // DTM/137
        5 => 0x01e_14d5444, // DTM/157
        6 => 0x03c_1464652, // RFF/ACW
        7 => 0x03c_1464652, // RFF/Z13
        8 => 0x05a_144414e, // NAD/MR
        9 => 0x05a_144414e, // NAD/MS
        10 => 0x06e_1434f4c, // LOC
        11 => 0x096_1415443, // CTA
        12 => 0x0aa_14d4f43, // COM
        13 => 0x0dc_1585543, // CUX
        14 => 0x24e_1494750, // PGI/9
        15 => 0x51e_14e494c, // LIN
        16 => 0x532_1414950, // PIA
        17 => 0x53c_1444d49, // IMD
        18 => 0x618_1495250, // PRI
        19 => 0x64a_14d5444, // DTM/163
        20 => 0x24e_1494750, // PGI/Z01
        21 => 0x51e_14e494c, // LIN
        22 => 0x618_1495250, // PRI
        23 => 0x640_1474e52, // RNG
        24 => 0x960_1544e55, // UNT
        25 => 0x64a_14d5444, // DTM/164
        _ => 0,
    }
}

// The tag of row n, with its counter.
pub(crate) fn tag_word(edition: Edition, n: usize) -> u64
    requires { n < length (guide_of edition) }
    ensures { result ≡ tag_word (guide_of edition) n }
{
    match edition {
        Edition::D => tag_word_20d(n),
        Edition::C => tag_word_20c(n),
    }
}
