//! What the body of a slot says: the header in the first slot, a grant or a settlement in each other. Numbers stand with the
//! highest byte first, and what no field needs is 0.

ghost use Rattle.std.specs.Prelude.{◌≡◌, ◌≤◌, ◌<◌, ◌^◌, ◌∷◌, ◌==◌, ◌↔◌, IsTrue, take, drop, option_map};
ghost use Rattle.std.specs.Int.{w64, from_be_bytes};
ghost use Rattle.std.specs.List.{list_all};
ghost use Rattle.account_journal.specs.Records.{record_bytes, number_bytes, client_in, cost_in, record_of, header_bytes};
ghost use Rattle.account_journal.specs.Reading.{record_seen, is_header, mark_in};

use cost_num::Cost;

// A number and the two parts of a cost.
fn number_bytes(number: u64, cost: Cost) -> [u8; 24]
    ensures { result ≡ number_bytes number cost }
{
    let [a, b, c, d, e, f, g, h] = number.to_be_bytes();
    let [i, j, k, l, m, n, o, p] = cost.types.to_be_bytes();
    let [q, r, s, t, u, v, w, x] = cost.fields.to_be_bytes();
    [
        a, b, c, d, e, f, g, h, i, j, k, l, m, n, o, p, q, r, s, t, u, v, w, x,
    ]
}

/// The body of a record of this kind.
pub(crate) fn record_bytes(kind: u8, client: u32, number: u64, cost: Cost) -> [u8; 63]
    ensures bytes { result ≡ record_bytes kind client number cost }
    ensures types { cost.types < 2 ^ 64 }
    ensures fields { cost.fields < 2 ^ 64 }
{
    let mut body = [0; 63];
    body[0] = kind;
    body[1..5].copy_from_slice(&client.to_be_bytes());
    body[5..29].copy_from_slice(&number_bytes(number, cost));
    body
}

/// What the body of a slot behind the first says.
#[derive(Clone, Copy, Debug, PartialEq, Eq)]
pub(crate) enum SlotRecord {
    /// A bound was reserved for a client in a window.
    Grant {
        client: u32,
        window: u64,
        bound: Cost,
    },
    /// The client's grant of a slot was settled at a measured cost.
    Settlement {
        client: u32,
        slot: u64,
        measured: Cost,
    },
}

// The number whose first byte stands at this place.
fn number_at(body: &[u8; 63], at: usize) -> u64
    requires { at ≤ 55 }
    ensures { result ≡ from_be_bytes w64 (take 8 (drop at body.now)) }
{
    let mut bytes = [0; 8];
    bytes.copy_from_slice(&body[at..at + 8]);
    u64::from_be_bytes(bytes)
}

fn client_of(body: &[u8; 63]) -> u32
    ensures { result ≡ client_in body.now }
{
    let mut bytes = [0; 4];
    bytes.copy_from_slice(&body[1..5]);
    u32::from_be_bytes(bytes)
}

fn cost_of(body: &[u8; 63]) -> Cost
    ensures { result ≡ cost_in body.now }
{
    Cost {
        types: number_at(body, 13),
        fields: number_at(body, 21),
    }
}

fn are_zero(bytes: &[u8]) -> bool
    ensures { result ≡ list_all (λ b. b == 0) bytes.now }
{
    bytes.iter().all(|byte| *byte == 0)
}

/// The record that a body says, if it says one.
pub(crate) fn record_of(body: &[u8; 63]) -> Option<SlotRecord>
    ensures { option_map record_seen result ≡ record_of body.now }
{
    if !are_zero(&body[29..]) {
        return None;
    }
    if body[0] == 1 {
        Some(SlotRecord::Grant {
            client: client_of(body),
            window: number_at(body, 5),
            bound: cost_of(body),
        })
    } else if body[0] == 2 {
        Some(SlotRecord::Settlement {
            client: client_of(body),
            slot: number_at(body, 5),
            measured: cost_of(body),
        })
    } else {
        None
    }
}

/// Whether a body is a header, of whatever mark.
pub(crate) fn is_header(body: &[u8; 63]) -> bool
    ensures { result ≡ is_header body.now }
{
    body[0] == 0 && are_zero(&body[33..])
}

/// Whether the header of a journal has this mark.
pub(crate) fn has_mark(body: &[u8; 63], mark: &[u8; 32]) -> bool
    ensures { IsTrue result ↔ (mark_in body.now ≡ mark.now) }
{
    body[1..33] == mark[..]
}

/// The header with this mark.
pub(crate) fn header_bytes(mark: &[u8; 32]) -> [u8; 63]
    ensures { result ≡ header_bytes mark.now }
{
    let mut body = [0; 63];
    body[1..33].copy_from_slice(mark);
    body
}
