// Written by tools/messages from its table of messages.
// Whether a type is a request's: one of the 28.

ghost use Rattle.std.specs.Prelude.{◌≡◌};
ghost use Rattle.layouts.specs.Tables.{table_t};
ghost use Rattle.pairs.specs.Pairs.{knows};

pub(crate) fn known_request(ty: u8) -> bool
    ensures { result ≡ knows table_t ty }
{
    matches!(
        ty,
        8 | 12
            | 14
            | 16
            | 18
            | 20
            | 22
            | 24
            | 26
            | 30
            | 32
            | 40
            | 50
            | 52
            | 54
            | 70
            | 72
            | 74
            | 76
            | 100
            | 102
            | 104
            | 108
            | 110
            | 116
            | 118
            | 120
            | 122
    )
}
