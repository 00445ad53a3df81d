//! `main` by stretches.

use crate::compiled::compiled;
use control_run::ControlRun;
use flow_core_laws::ControlEnd;
use os_io::{List, Memory};
use std::test::Fail;

/// A program that asks for more activations than a run may have.
const MANY: &str = r"int main(void) {
    int i, y;
    for (i = 0; i < 70000; i++) {
        #pragma omp task output(osout << y)
        y = i & 255;
    }
}
";

#[test]
fn a_stretch_goes_on_where_the_one_before_it_stopped(rt: HostRuntime) -> Result<(), Fail> {
    let Some(code) = compiled(&rt, rt.alloc(), MANY) else {
        assert!(rt; false, "{MANY}");
        return Ok(());
    };
    let mut run = ControlRun::new(rt.alloc(), &code, 0, 1_000_000)?;
    let mut activations = List::new(rt.alloc());
    assert!(rt; !run.advance(&mut activations, 40_000)?);
    assert!(rt; activations.len() == 40_000);
    assert!(rt; run.advance(&mut activations, 40_000)?);
    assert!(rt; activations.len() == 65_536);
    assert!(rt; run.end() == Some(ControlEnd::Limit(1)));
    Ok(())
}
