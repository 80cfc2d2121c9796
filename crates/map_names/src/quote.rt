//! Names between quotation marks.

ghost use Rattle.std.specs.Prelude.{◌≡◌, ◌++◌, option_map, OnOk, IfOk};
ghost use Rattle.map_names.specs.Entries.{between, mark_of, quoted_byte, quoted_name};
ghost use Rattle.map_names.specs.private.Parts.{added_by};

use crate::parts::{after_label, before_ending};
use std::alloc::{AllocError, Global};

/// A quotation mark.
#[derive(Clone, Copy)]
pub enum Quote {
    /// `'`
    Single,
    /// `"`
    Double,
}

/// What stands before a double mark and before a backslash that belong to a name.
const BACKSLASH: u8 = b'\\';

/// What a byte between quotation marks adds to a name.
#[derive(Clone, Copy)]
pub(crate) enum Added {
    /// Nothing: the next byte belongs to it.
    Nothing,
    /// This byte.
    Byte(u8),
    /// A backslash, and this byte.
    Escape(u8),
}

impl Quote {
    /// Its byte.
    fn mark(self) -> u8
        ensures { result ≡ mark_of self }
    {
        match self {
            Quote::Single => b'\'',
            Quote::Double => b'"',
        }
    }

    /// What stands between two such marks, if bytes begin and end with one.
    #[tactic(auto, unfolding(crate::specs::Entries::between))]
    pub(crate) fn between(self, bytes: &[u8]) -> Option<&[u8]>
        ensures { option_map (λ part. part.now) result ≡ between self bytes.now }
    {
        let mark = [self.mark()];
        before_ending(&mark, after_label(&mark, bytes)?)
    }

    /// What a byte adds to a name between these marks, or `None` if it can't stand there. `belongs` says
    /// that it belongs to the byte before it.
    fn added_by(self, belongs: bool, byte: u8) -> Option<Added>
        ensures { option_map added_by result ≡ quoted_byte self belongs byte }
    {
        match self {
            Quote::Single => single_byte(belongs, byte),
            Quote::Double => double_byte(belongs, byte),
        }
    }

    /// The name that bytes between these marks say, or `None` if they aren't written so.
    pub(crate) fn read(self, alloc: Global, bytes: &[u8]) -> Result<Option<Vec<u8>>, AllocError>
        ensures { IfOk result (λ name. option_map (λ n. n.items) name ≡ quoted_name self bytes.now) }
    {
        let mut name = Vec::with_capacity(alloc, bytes.len())?;
        let mut belongs = false;
        'letters: for byte in bytes {
            let Some(added) = self.added_by(belongs, *byte) else {
                return Ok(None);
            };
            add(&mut name, added)?;
            belongs = is_nothing(added);
        }
        if belongs {
            return Ok(None);
        }
        Ok(Some(name))
    }
}

/// What a byte adds to a name between single marks.
#[tactic(auto, unfolding(crate::specs::Entries::quoted_byte))]
fn single_byte(belongs: bool, byte: u8) -> Option<Added>
    ensures { option_map added_by result ≡ quoted_byte Quote.Single belongs byte }
{
    if belongs {
        if byte == b'\'' {
            Some(Added::Byte(byte))
        } else {
            None
        }
    } else if byte == b'\'' {
        Some(Added::Nothing)
    } else {
        Some(Added::Byte(byte))
    }
}

/// What a byte adds to a name between double marks.
#[tactic(auto, unfolding(crate::specs::Entries::quoted_byte))]
fn double_byte(belongs: bool, byte: u8) -> Option<Added>
    ensures { option_map added_by result ≡ quoted_byte Quote.Double belongs byte }
{
    if belongs {
        if byte == b'"' || byte == BACKSLASH {
            Some(Added::Byte(byte))
        } else {
            Some(Added::Escape(byte))
        }
    } else if byte == b'"' {
        None
    } else if byte == BACKSLASH {
        Some(Added::Nothing)
    } else {
        Some(Added::Byte(byte))
    }
}

/// Whether the next byte belongs to the one that added this.
fn is_nothing(added: Added) -> bool
    ensures { result ≡ (added_by added).1 }
{
    match added {
        Added::Nothing => true,
        Added::Byte(_) | Added::Escape(_) => false,
    }
}

/// Adds this to a name.
fn add(name: &mut Vec<u8>, added: Added) -> Result<(), AllocError>
    ensures { OnOk result (name.new.items ≡ name.old.items ++ (added_by added).0) }
{
    match added {
        Added::Nothing => {}
        Added::Byte(byte) => name.push(byte)?,
        Added::Escape(byte) => name.extend_from_slice(&[BACKSLASH, byte])?,
    }
    Ok(())
}
