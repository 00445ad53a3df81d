ghost use Rattle.std.specs.Prelude.{◌≡◌, ◌++◌, IfOk, OnOk};
ghost use Rattle.os_code.specs.Codes.{parts_of};
ghost use Rattle.oscc_text.specs.Program.{c_of, main_text};

use crate::pieces::add_two;
use crate::sites::{add_sites, add_table};
use crate::units::add_units;
use os_code::Code;
use os_io::Memory;
use osview_text::Text;
use std::alloc::Global;

/// Adds how many streams there are, and `main`.
fn add_main(told: &mut Text, code: &Code) -> Result<(), Memory>
    ensures { OnOk result (told.new ≡ told.old ++ main_text (parts_of code.now)) }
{
    add_two(
        told,
        b"const uint32_t os_streams = ",
        u64::from(code.streams),
        b";\n\nvoid os_main(int32_t length)\n{\n    unit_",
        u64::from(code.main),
        b"(length);\n}\n",
    )
}

/// The C of a code. It takes time and memory in proportion to the code's instructions, units and sites.
#[tactic(auto, unfolding(crate::specs::Program::c_of))]
pub fn c_text(alloc: Global, code: &Code) -> Result<Text, Memory>
    ensures { IfOk result (λ told. told ≡ c_of (parts_of code.now)) }
{
    let mut told = Text::new(alloc);
    told.add(b"#include \"osrt.h\"\n\n")?;
    add_units(alloc, &mut told, code)?;
    add_sites(&mut told, code)?;
    add_table(&mut told, code)?;
    add_main(&mut told, code)?;
    Ok(told)
}
