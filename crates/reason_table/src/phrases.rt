// The table of phrases: one for each sort of refusal.
ghost use Rattle.std.specs.Prelude.{◌≡◌, ◌≤◌, length};
ghost use Rattle.std.proofs.lemmas.List.Edits.{sets};
ghost use Rattle.reason_model.specs.Reasons.{phrase_at};

use buffer::put_bytes;
use refusals::table::SORTS;

// By the position of a sort.
static PHRASES: [&[u8]; SORTS] = [
    b"The line of names differs or is missing.",
    b"The value of @ is unreadable or missing.",
    b"There is text after the last value, where column % would be.",
    b"The value of @ is outside its range: it is #.",
    b"Values are at odds at SO, which may not be above BO: SO is # and BO is #.",
    b"Values are at odds at NR, which is 0 exactly where H is 0: NR is # and H is #.",
    b"Values are at odds at NE, since nothing senses: NE is # and OWN is #.",
    b"Values are at odds at SINK, which may not be above H: SINK is # and H is #.",
    b"Values are at odds at SINK, which is 0 where NR is below 2: SINK is # and NR is #.",
    b"Values are at odds at DATA, which with HEAD may not be above 127: HEAD is # and DATA is #.",
    b"Values are at odds at LOSS, which is 0 where ACK is 0: LOSS is # and ACK is #.",
    b"A router would have more than 7 reservations: NE is # and NR is #.",
    b"There are more routers than superframes that fit a beacon interval: # against #.",
    b"The slots used at depth % are more than can be reserved: # used and # reservable.",
    b"The lent buffer is shorter than the text to be written.",
    b"The input is over 65,536 bytes.",
    b"The line of names of the node list differs or is missing.",
    b"Line % of the node list breaks a rule or is missing.",
    b"The sink is no router of the tree.",
    b"Router % would have more than 7 reservations: it would have #.",
    b"The slots used at router % are more than can be reserved: # used and # reservable.",
];

// The phrase of a sort; nothing where there is no such sort.
pub fn phrase(sort: usize) -> &'static [u8]
    ensures value { result.now ≡ phrase_at sort }
    ensures upper_bound { length result.now ≤ 128 }
{
    if sort < SORTS { PHRASES[sort] } else { b"" }
}

// Puts the phrase of a sort at the front of lent memory, as far as there is room, and answers its length: 128 bytes are always enough.
pub fn put_phrase(out: &mut [u8], sort: usize) -> usize
    ensures value { result ≡ length (phrase_at sort) }
    ensures upper_bound { result ≤ 128 }
    ensures out_after { out.new ≡ sets out.old 0 (phrase_at sort) }
{
    put_bytes(out, 0, phrase(sort))
}
