//! The first values of a packet's attributes, by their types.
ghost use Rattle.std.specs.Prelude.{◌≡◌, ◌<◌, None, replicate};
ghost use Rattle.std.specs.Option.{option_map};
ghost use Rattle.radius_codec.specs.Attributes.{value_of};

use radius_codec::Attributes;
use std::marker::Model;

/// One more than the greatest type that is read, which is Acct-Output-Gigawords.
pub(crate) const TYPES: usize = 54;

/// A packet's attributes, with the first value of each type below 54 at hand.
#[derive(Drop)]
pub(crate) struct FirstValues<'p, 'a> {
    attributes: &'p Attributes<'a>,
    values: &'p [Option<&'a [u8]>; TYPES],
}

impl<'p, 'a> Model for FirstValues<'p, 'a> {
    ghost use Rattle.std.specs.Prelude.{ℕ, List};

    ghost Value = { List (ℕ × List ℕ) };

    ghost use Rattle.acct_model.specs.FirstValues.{AreFirstValues};

    ghost view = { λ v. v.attributes.now };

    ghost invariant = { λ v. AreFirstValues v.values.now v.attributes.now };
}

impl<'p, 'a> FirstValues<'p, 'a> {
    /// The first values of these attributes, found in one walk and put at their places in `values`,
    /// which has none yet.
    pub(crate) fn of(
        attributes: &'p Attributes<'a>,
        values: &'p mut [Option<&'a [u8]>; TYPES],
    ) -> FirstValues<'p, 'a>
        requires { values.old ≡ replicate 54 None }
        ensures { result ≡ attributes.now }
    {
        for (kind, value) in attributes.iter() {
            let place = usize::from(kind);
            if place < TYPES && values[place].is_none() {
                values[place] = Some(value);
            }
        }
        FirstValues { attributes, values }
    }

    /// The value of the first attribute of a type, in octets; none if no attribute has the type.
    pub(crate) fn first(&self, kind: u8) -> Option<&'a [u8]>
        requires { kind < 54 }
        ensures { option_map (λ value. value.now) result ≡ value_of kind self.now }
    {
        self.values[usize::from(kind)]
    }
}
