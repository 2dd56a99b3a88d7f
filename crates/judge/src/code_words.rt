// The codes of all rows, one row's after the other's, as numbers.
ghost use Rattle.std.specs.Prelude.{◌<◌, ◌≡◌, length, get_or};
ghost use Rattle.guide.specs.Pricat.{pricat20d, pricat20c};
ghost use Rattle.guide.specs.Editions.{guide_of};
ghost use Rattle.judge.specs.workers.Rows.{codes_of};

use guide::Edition;

fn code_20d(j: usize) -> u64
    requires { j < 12 }
    ensures { result ≡ get_or (codes_of pricat20d) j 0 }
{
    match j {
        0 => 20068660, // 492
        1 => 20394801, // 137
        2 => 20395313, // 157
        3 => 22496065, // ACW
        4 => 20329818, // Z56
        5 => 20132186, // Z13
        6 => 86605, // MR
        7 => 86861, // MS
        8 => 313, // 9
        9 => 20133425, // 163
        10 => 20000858, // Z01
        11 => 20198961, // 164
        _ => 0,
    }
}

fn code_20c(j: usize) -> u64
    requires { j < 11 }
    ensures { result ≡ get_or (codes_of pricat20c) j 0 }
{
    match j {
        0 => 20068660, // 492
        1 => 20394801, // 137
        2 => 20395313, // 157
        3 => 22496065, // ACW
        4 => 20132186, // Z13
        5 => 86605, // MR
        6 => 86861, // MS
        7 => 313, // 9
        8 => 20133425, // 163
        9 => 20000858, // Z01
        10 => 20198961, // 164
        _ => 0,
    }
}

// Code j of all codes.
pub(crate) fn code(edition: Edition, j: usize) -> u64
    requires { j < length (codes_of (guide_of edition)) }
    ensures { result ≡ get_or (codes_of (guide_of edition)) j 0 }
{
    match edition {
        Edition::D => code_20d(j),
        Edition::C => code_20c(j),
    }
}
