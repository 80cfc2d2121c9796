//! The places at which a word turns.

ghost use Rattle.std.specs.Prelude.{◌≡◌, ◌≤◌, ◌+◌, ℕ, Bool, [], OnOk, vec_len};
ghost use Rattle.audit_check.specs.private.Turns.{AreMade, IsLeast, IsMet, IsTurned, is_odd};

use std::alloc::{AllocError, Global};

/// The places of a script at which a word turns: it gets the value that is looked for, then another
/// one, and so on. Before the first place it has another one. So it is on at a place if the number of
/// turns up to it is odd.
#[derive(Drop)]
pub(crate) struct Turns {
    pub(crate) places: Vec<u32>,
}

impl Turns {
    /// No turns yet: the word is off.
    pub(crate) fn new(alloc: Global) -> Self
        ensures { result.places.items ≡ [] }
    {
        Turns {
            places: Vec::new(alloc),
        }
    }

    /// Notes that the word is on, or off, from a place on, which comes after all so far.
    pub(crate) fn note(&mut self, place: u32, on: bool) -> Result<(), AllocError>
        ensures { OnOk result ((values : ℕ → Bool) (last : ℕ) → IsTurned values last self.old.places.items
            → place ≡ last + 1 → values place ≡ on → IsTurned values place self.new.places.items) }
    {
        if on != is_odd(self.places.len()) {
            self.places.push(place)?;
        }
        Ok(())
    }

    /// The first place from `from` on, and within `bound`, at which the word is on, or off. `near` is a
    /// guess at the number of turns up to `from`; any number gives the same answer. Leaves that number
    /// in it.
    ///
    /// A caller whose places never fall keeps `near` between its calls. Then all of them together go
    /// through the turns once.
    #[inline]
    pub(crate) fn first(&self, on: bool, from: u32, bound: u32, near: &mut usize) -> Option<u32>
        ensures { (values : ℕ → Bool) (last : ℕ) → IsTurned values last self.now.places.items
            → bound ≤ last → IsLeast (IsMet values on from bound) result }
    {
        let made = self.made_at(from, *near);
        *near = made;
        let at = if is_odd(made) == on {
            from
        } else {
            *self.places.get(made)?
        };
        if at <= bound { Some(at) } else { None }
    }

    /// How many turns are made up to a place. Looks from the number `near` on, back and then forth.
    #[inline]
    fn made_at(&self, place: u32, near: usize) -> usize
        ensures within { result ≤ vec_len self.now.places }
        ensures made { (values : ℕ → Bool) (last : ℕ) → IsTurned values last self.now.places.items
            → AreMade self.now.places.items place result }
    {
        let mut made = near.min(self.places.len());
        'back: while made > 0 && self.places[made - 1] > place {
            made -= 1;
        }
        'forth: while made < self.places.len() && self.places[made] <= place {
            made += 1;
        }
        made
    }
}

/// Whether a number is odd.
#[inline]
fn is_odd(number: usize) -> bool
    ensures { result ≡ is_odd number }
{
    number % 2 == 1
}
