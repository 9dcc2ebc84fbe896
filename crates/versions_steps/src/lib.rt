// The steps of a put and of a flush: the block that is taken, the version written, the log block stored. They read memory and disk, and
// alter them by controller::update alone. The contracts cite the definitions of versions_machine and versions_bytes, and specs/ what is
// taken for granted.
#![tactic(auto)]

pub mod allocation;
pub mod log;
pub mod version;
