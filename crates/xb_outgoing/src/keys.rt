// What the key `send` of a route says.
ghost use Rattle.std.specs.Prelude.{◌≡◌, codes, option_map};
ghost use Rattle.toml.specs.Data.{get_member};
ghost use Rattle.toml.specs.View.{table_view, view};
ghost use Rattle.xb_outgoing.specs.Groups.{says_pulses, send_at, send_of};

use toml::{Table, Value};

/// What a key holds.
pub(crate) fn value_at<'a>(keys: &'a Table, name: &str) -> Option<&'a Value>
    ensures { option_map (λ v. view v.now) result ≡ get_member name.now (table_view keys.now) }
{
    keys.get(name)
}

// Whether a text says dial pulses; `None` where it says nothing that there is.
fn says_pulses(text: &[u8]) -> Option<bool>
    ensures { result ≡ says_pulses text.now }
{
    if text == b"dp".as_slice() {
        Some(true)
    } else {
        None
    }
}

// The same of a route's table.
fn send_of_table(keys: &Table) -> Option<bool>
    ensures { result ≡ send_at (get_member (codes "send") (table_view keys.now)) }
{
    let Some(value) = value_at(keys, "send") else {
        return Some(false);
    };
    says_pulses(value.as_str()?.as_bytes())
}

/// Whether a route is sent by dial pulses; `None` where its `send` is wrong.
pub(crate) fn send_of(value: &Value) -> Option<bool>
    ensures { result ≡ send_of (view value.now) }
{
    send_of_table(value.as_table()?)
}
