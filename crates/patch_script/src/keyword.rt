//! The first words of commands.

ghost use Rattle.std.specs.Prelude.{◌≡◌};
ghost use Rattle.patch_script.specs.Language.{keyword_of};

use text_lines::keyword_in;

/// The first word of a command.
#[derive(Clone, Copy)]
pub(crate) enum CommandKeyword {
    Patch,
    Unpatch,
    PatchFunction,
    UnpatchFunction,
    SetHandler,
    RemoveHandler,
    SetArgHandler,
    RemoveArgHandler,
    Init,
    Finalize,
    Hold,
    Go,
    Release,
    Await,
}

/// The keywords, as scripts have them.
const KEYWORDS: [(&[u8], CommandKeyword); 14] = [
    (b"patch", CommandKeyword::Patch),
    (b"unpatch", CommandKeyword::Unpatch),
    (b"patch_function", CommandKeyword::PatchFunction),
    (b"unpatch_function", CommandKeyword::UnpatchFunction),
    (b"set_handler", CommandKeyword::SetHandler),
    (b"remove_handler", CommandKeyword::RemoveHandler),
    (b"set_arg_handler", CommandKeyword::SetArgHandler),
    (b"remove_arg_handler", CommandKeyword::RemoveArgHandler),
    (b"init", CommandKeyword::Init),
    (b"finalize", CommandKeyword::Finalize),
    (b"hold", CommandKeyword::Hold),
    (b"go", CommandKeyword::Go),
    (b"release", CommandKeyword::Release),
    (b"await", CommandKeyword::Await),
];

/// The keyword that a word is, if it is one.
pub(crate) fn keyword_of(word: &[u8]) -> Option<CommandKeyword>
    ensures { result ≡ keyword_of word.now }
{
    keyword_in(&KEYWORDS, word)
}
