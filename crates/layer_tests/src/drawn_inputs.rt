//! A call of `soak_inputs`: the inputs of the first number, as the model of `soak_inputs` draws them.

use crate::checks::check_same;
use soak_inputs::*;
use std::test::Fail;

#[test]
fn inputs_are_those_of_the_model(rt: HostRuntime) -> Result<(), Fail> {
    let SoakInputs {
        text,
        script,
        schedule,
    } = soak_inputs(rt.alloc(), 0)?;
    check_same(&rt, &text.len(), &3720);
    assert!(rt; text.starts_with(b"base 0x1000\nfn f0 always\nmov eax, 17\nout 1\ncall f1\n"));
    check_same(&rt, &script.len(), &1606);
    assert!(rt;
        script.starts_with(b"patch\nset_handler\ninit\ngo\npatch_function 46\nset_handler\n")
    );
    check_same(&rt, &schedule.len(), &27112);
    assert!(rt; schedule.starts_with(b"t 2 131\nt 4 20\nt 1 145\nt 2 180\nt 3 3\np 1\n"));
    Ok(())
}
