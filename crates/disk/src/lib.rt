// The disk's bytes. A group's functions get its extent of the disk and know only places within it; those of the whole
// disk cut the extent out and hand it on. The contracts cite specs/.
#![tactic(auto)]

pub mod group;
pub mod whole;
