ghost use Rattle.std.specs.Prelude.{◌≡◌, IfOk, map};
ghost use Rattle.os_code.specs.Codes.{parts_of};
ghost use Rattle.osview_answer.specs.Graphs.{site_lines};
ghost use Rattle.osview_answer.specs.Source.{site_line};

use flow_core_laws::Activation;
use os_code::Code;
use os_io::Memory;
use std::alloc::Global;

/// The line of an activation's task.
fn site_line(code: &Code, activation: &Activation) -> u32
    ensures { result ≡ site_line (parts_of code.now) activation.now }
{
    match code.sites.as_slice().get(activation.site as usize) {
        Some(site) => site.line,
        None => 0,
    }
}

/// The line of each activation's task.
pub(crate) fn task_lines(
    alloc: Global,
    code: &Code,
    activations: &[Activation],
) -> Result<Vec<u32>, Memory>
    ensures { IfOk result (λ lines. lines.items ≡ map (site_line (parts_of code.now)) activations.now) }
{
    let mut lines = Vec::new(alloc);
    for activation in activations {
        lines.push(site_line(code, activation))?;
    }
    Ok(lines)
}

/// The line of each task's pragma, in the order of the text.
pub(crate) fn site_lines(alloc: Global, code: &Code) -> Result<Vec<u32>, Memory>
    ensures { IfOk result (λ lines. lines.items ≡ site_lines (parts_of code.now)) }
{
    let mut lines = Vec::new(alloc);
    for site in code.sites.as_slice() {
        lines.push(site.line)?;
    }
    Ok(lines)
}
