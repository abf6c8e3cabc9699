// The table's numbers and places, by the position of a sort. Its phrases stand in crate reason_table.
ghost use Rattle.std.specs.Prelude.{◌≡◌};
ghost use Rattle.refusals.specs.Table.{sort_at, place_said};

// How many sorts of refusal there are.
pub const SORTS: usize = 21;

// Each row's number, and the place of all its refusals, unless each has its own.
static TABLE: [(u32, Option<u32>); SORTS] = [
    (1, Some(0)), // the line of names
    (2, None), // an unreadable value
    (2, None), // text after the last value
    (3, None), // a value outside its range
    (4, Some(2)), // SO and BO
    (4, Some(4)), // NR and H
    (4, Some(5)), // NE and OWN
    (4, Some(7)), // SINK and H
    (4, Some(7)), // SINK and NR
    (4, Some(11)), // HEAD and DATA
    (4, Some(13)), // LOSS and ACK
    (5, Some(0)), // reservations
    (6, Some(0)), // superframes
    (7, None), // slots used at a depth
    (8, Some(0)), // the lent buffer
    (9, Some(0)), // the input's length
    (10, Some(0)), // a node list's line of names
    (10, None), // a line of a node list
    (10, Some(0)), // the sink
    (5, None), // a router's reservations
    (7, None), // slots used at a router
];

// The number of a sort, 0 where there is no such sort.
pub fn number_at(sort: usize) -> u32
    ensures { result ≡ (sort_at sort).number }
{
    match TABLE.get(sort) {
        Some((number, _)) => *number,
        None => 0,
    }
}

// The place of all refusals of a sort, 0 where each has its own or there is no such sort.
pub fn place_at(sort: usize) -> u32
    ensures { result ≡ place_said (sort_at sort).place }
{
    match TABLE.get(sort) {
        Some((_, place)) => place.unwrap_or(0),
        None => 0,
    }
}
