// Written by tools/messages from its table of messages.
// Whether a type is a request's: one of the 13.

ghost use Rattle.std.specs.Prelude.{◌≡◌};
ghost use Rattle.layouts.specs.Plain.{table_t};
ghost use Rattle.pairs.specs.Pairs.{knows};

pub(crate) fn known_request(ty: u8) -> bool
    ensures { result ≡ knows table_t ty }
{
    matches!(
        ty,
        100 | 102 | 104 | 108 | 110 | 112 | 114 | 116 | 118 | 120 | 122 | 124 | 126
    )
}
