// The nodes of a tag: one set for each tag, bit n for row n.
ghost use Rattle.std.specs.Prelude.{◌≡◌};
ghost use Rattle.guide.specs.Pricat.{pricat20d, pricat20c};
ghost use Rattle.guide.specs.Editions.{guide_of};
ghost use Rattle.judge.specs.workers.Sets.{tagged_of};

use guide::Edition;

fn tagged_20d(tag: u32) -> u32
    ensures { result ≡ tagged_of pricat20d tag }
{
    match tag {
        0x1484e55 => 0x00000002, // UNH
        0x14d4742 => 0x00000004, // BGM
        0x14d5444 => 0x08200038, // DTM
        0x1464652 => 0x000001c0, // RFF
        0x144414e => 0x00000600, // NAD
        0x1434f4c => 0x00000800, // LOC
        0x1415443 => 0x00001000, // CTA
        0x14d4f43 => 0x00002000, // COM
        0x1585543 => 0x00004000, // CUX
        0x1494750 => 0x00408000, // PGI
        0x14e494c => 0x00810000, // LIN
        0x1414950 => 0x00020000, // PIA
        0x1444d49 => 0x00040000, // IMD
        0x1495250 => 0x01080000, // PRI
        0x1474e52 => 0x02100000, // RNG
        0x1544e55 => 0x04000000, // UNT
        _ => 0,
    }
}

fn tagged_20c(tag: u32) -> u32
    ensures { result ≡ tagged_of pricat20c tag }
{
    match tag {
        0x1484e55 => 0x00000002, // UNH
        0x14d4742 => 0x00000004, // BGM
        0x14d5444 => 0x02080038, // DTM
        0x1464652 => 0x000000c0, // RFF
        0x144414e => 0x00000300, // NAD
        0x1434f4c => 0x00000400, // LOC
        0x1415443 => 0x00000800, // CTA
        0x14d4f43 => 0x00001000, // COM
        0x1585543 => 0x00002000, // CUX
        0x1494750 => 0x00104000, // PGI
        0x14e494c => 0x00208000, // LIN
        0x1414950 => 0x00010000, // PIA
        0x1444d49 => 0x00020000, // IMD
        0x1495250 => 0x00440000, // PRI
        0x1474e52 => 0x00800000, // RNG
        0x1544e55 => 0x01000000, // UNT
        _ => 0,
    }
}

// The nodes whose tag is this number.
pub(crate) fn tagged(edition: Edition, tag: u32) -> u32
    ensures { result ≡ tagged_of (guide_of edition) tag }
{
    match edition {
        Edition::D => tagged_20d(tag),
        Edition::C => tagged_20c(tag),
    }
}
