use crate::instr::Instr;
use crate::site::Site;
use crate::unit::CodeUnit;
use os_io::List;

/// What a code is made of, valid or not.
#[derive(Debug, Drop)]
pub struct Parts {
    /// The instructions of all units; a place is an index into them.
    pub instrs: List<Instr>,
    pub units: List<CodeUnit>,
    pub sites: List<Site>,
    /// The number of the unit of `main`.
    pub main: u32,
    /// How many streams there are: `osin`, `osout` and the declared ones.
    pub streams: u32,
}
