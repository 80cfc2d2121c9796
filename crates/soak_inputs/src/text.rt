//! The assembler text.
ghost use Rattle.std.specs.Prelude.{◌≡◌, ◌≤◌, ◌<◌, ◌++◌, ◌∷◌, ℕ, [], IfOk, OnOk};
ghost use Rattle.text_lines.specs.Written.{written_text};
ghost use Rattle.soak_inputs.specs.Texts.{after_callee, after_function, after_round, after_text, assembler_text, call_lines, callee, function_lines, round, round_lines};

use crate::SOAK_FUNCTIONS;
use crate::draws::Draws;
use crate::lines::add_number;
use std::alloc::Global;
use xray_io::NoMemory;

/// The number of the last function. They are `f0`, `f1` and so on.
const LAST: u64 = SOAK_FUNCTIONS - 1;

/// How many functions after its caller a called function may come.
const REACH: u64 = 4;

/// How many values a byte has.
const BYTE_VALUES: u64 = 256;

/// The most rounds of a function.
const ROUNDS: u64 = 2;

/// The assembler text that is drawn next.
pub(crate) fn write_text(alloc: Global, draws: &mut Draws) -> Result<Vec<u8>, NoMemory>
    ensures text { IfOk result (λ text. text.items ≡ assembler_text draws.old) }
    ensures after { OnOk result (draws.new ≡ after_text draws.old) }
{
    let mut text = Vec::from_slice(alloc, b"base 0x1000\n")?;
    for function in 0..SOAK_FUNCTIONS {
        add_function(&mut text, function, draws)?;
    }
    Ok(text)
}

/// Adds the lines of a function.
fn add_function(text: &mut Vec<u8>, function: u64, draws: &mut Draws) -> Result<(), NoMemory>
    requires { function ≤ 63 }
    ensures text { OnOk result
        (text.new.items ≡ text.old.items ++ written_text (function_lines function draws.old)) }
    ensures after { OnOk result (draws.new ≡ after_function function draws.old) }
{
    add_number(text, b"fn f", function, b" always\n")?;
    let rounds = 1 + draws.draw(ROUNDS);
    for _ in 0..rounds {
        add_round(text, function, draws)?;
    }
    text.extend_from_slice(b"ret\n")?;
    Ok(())
}

/// Adds the lines of a round of a function.
fn add_round(text: &mut Vec<u8>, function: u64, draws: &mut Draws) -> Result<(), NoMemory>
    requires { function ≤ 63 }
    ensures text { OnOk result
        (text.new.items ≡ text.old.items ++ written_text (round_lines (round function draws.old))) }
    ensures after { OnOk result (draws.new ≡ after_round function draws.old) }
{
    let callee = draw_callee(function, draws);
    add_number(text, b"mov eax, ", draws.draw(BYTE_VALUES), b"\nout 1\n")?;
    add_call(text, callee)
}

/// Draws the function that a round of `function` calls. The last function calls none.
fn draw_callee(function: u64, draws: &mut Draws) -> Option<u64>
    requires { function ≤ 63 }
    ensures value { result ≡ callee function draws.old }
    ensures after { draws.new ≡ after_callee function draws.old }
{
    if function < LAST {
        Some(LAST.min(function + 1 + draws.draw(REACH)))
    } else {
        None
    }
}

/// Adds the line of a call, if there is one.
fn add_call(text: &mut Vec<u8>, callee: Option<u64>) -> Result<(), NoMemory>
    ensures { OnOk result (text.new.items ≡ text.old.items ++ written_text (call_lines callee)) }
{
    match callee {
        Some(callee) => add_number(text, b"call f", callee, b"\n"),
        None => Ok(()),
    }
}
