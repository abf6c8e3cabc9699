// How long the exchange of one frame lasts, X (document 01, 'Time on the air'), from a table (document 02, E4).
ghost use Rattle.std.specs.Prelude.{◌≡◌, ◌≤◌};
ghost use Rattle.superframe_model.specs.Exchange.{exchange_for};
ghost use Rattle.superframe_model.specs.ExchangeTable.{entry_for, InOrder};

use measure::Symbols;

// The longest exchange of all: 127 octets, acknowledged.
const LONGEST: u64 = 340;

// The radio maker's table: M from 6 to 127, for each without acknowledgement and then with.
static TABLE: [u16; 244] = [
    36, // 6 octets
    70, // 6 octets, acknowledged
    38, // 7 octets
    72, // 7 octets, acknowledged
    40, // 8 octets
    74, // 8 octets, acknowledged
    42, // 9 octets
    76, // 9 octets, acknowledged
    44, // 10 octets
    78, // 10 octets, acknowledged
    46, // 11 octets
    80, // 11 octets, acknowledged
    48, // 12 octets
    82, // 12 octets, acknowledged
    50, // 13 octets
    84, // 13 octets, acknowledged
    52, // 14 octets
    86, // 14 octets, acknowledged
    54, // 15 octets
    88, // 15 octets, acknowledged
    56, // 16 octets
    90, // 16 octets, acknowledged
    58, // 17 octets
    92, // 17 octets, acknowledged
    60, // 18 octets
    94, // 18 octets, acknowledged
    90, // 19 octets
    124, // 19 octets, acknowledged
    92, // 20 octets
    126, // 20 octets, acknowledged
    94, // 21 octets
    128, // 21 octets, acknowledged
    96, // 22 octets
    130, // 22 octets, acknowledged
    98, // 23 octets
    132, // 23 octets, acknowledged
    100, // 24 octets
    134, // 24 octets, acknowledged
    102, // 25 octets
    136, // 25 octets, acknowledged
    104, // 26 octets
    138, // 26 octets, acknowledged
    106, // 27 octets
    140, // 27 octets, acknowledged
    108, // 28 octets
    142, // 28 octets, acknowledged
    110, // 29 octets
    144, // 29 octets, acknowledged
    112, // 30 octets
    146, // 30 octets, acknowledged
    114, // 31 octets
    148, // 31 octets, acknowledged
    116, // 32 octets
    150, // 32 octets, acknowledged
    118, // 33 octets
    152, // 33 octets, acknowledged
    120, // 34 octets
    154, // 34 octets, acknowledged
    122, // 35 octets
    156, // 35 octets, acknowledged
    124, // 36 octets
    158, // 36 octets, acknowledged
    126, // 37 octets
    160, // 37 octets, acknowledged
    128, // 38 octets
    162, // 38 octets, acknowledged
    130, // 39 octets
    164, // 39 octets, acknowledged
    132, // 40 octets
    166, // 40 octets, acknowledged
    134, // 41 octets
    168, // 41 octets, acknowledged
    136, // 42 octets
    170, // 42 octets, acknowledged
    138, // 43 octets
    172, // 43 octets, acknowledged
    140, // 44 octets
    174, // 44 octets, acknowledged
    142, // 45 octets
    176, // 45 octets, acknowledged
    144, // 46 octets
    178, // 46 octets, acknowledged
    146, // 47 octets
    180, // 47 octets, acknowledged
    148, // 48 octets
    182, // 48 octets, acknowledged
    150, // 49 octets
    184, // 49 octets, acknowledged
    152, // 50 octets
    186, // 50 octets, acknowledged
    154, // 51 octets
    188, // 51 octets, acknowledged
    156, // 52 octets
    190, // 52 octets, acknowledged
    158, // 53 octets
    192, // 53 octets, acknowledged
    160, // 54 octets
    194, // 54 octets, acknowledged
    162, // 55 octets
    196, // 55 octets, acknowledged
    164, // 56 octets
    198, // 56 octets, acknowledged
    166, // 57 octets
    200, // 57 octets, acknowledged
    168, // 58 octets
    202, // 58 octets, acknowledged
    170, // 59 octets
    204, // 59 octets, acknowledged
    172, // 60 octets
    206, // 60 octets, acknowledged
    174, // 61 octets
    208, // 61 octets, acknowledged
    176, // 62 octets
    210, // 62 octets, acknowledged
    178, // 63 octets
    212, // 63 octets, acknowledged
    180, // 64 octets
    214, // 64 octets, acknowledged
    182, // 65 octets
    216, // 65 octets, acknowledged
    184, // 66 octets
    218, // 66 octets, acknowledged
    186, // 67 octets
    220, // 67 octets, acknowledged
    188, // 68 octets
    222, // 68 octets, acknowledged
    190, // 69 octets
    224, // 69 octets, acknowledged
    192, // 70 octets
    226, // 70 octets, acknowledged
    194, // 71 octets
    228, // 71 octets, acknowledged
    196, // 72 octets
    230, // 72 octets, acknowledged
    198, // 73 octets
    232, // 73 octets, acknowledged
    200, // 74 octets
    234, // 74 octets, acknowledged
    202, // 75 octets
    236, // 75 octets, acknowledged
    204, // 76 octets
    238, // 76 octets, acknowledged
    206, // 77 octets
    240, // 77 octets, acknowledged
    208, // 78 octets
    242, // 78 octets, acknowledged
    210, // 79 octets
    244, // 79 octets, acknowledged
    212, // 80 octets
    246, // 80 octets, acknowledged
    214, // 81 octets
    248, // 81 octets, acknowledged
    216, // 82 octets
    250, // 82 octets, acknowledged
    218, // 83 octets
    252, // 83 octets, acknowledged
    220, // 84 octets
    254, // 84 octets, acknowledged
    222, // 85 octets
    256, // 85 octets, acknowledged
    224, // 86 octets
    258, // 86 octets, acknowledged
    226, // 87 octets
    260, // 87 octets, acknowledged
    228, // 88 octets
    262, // 88 octets, acknowledged
    230, // 89 octets
    264, // 89 octets, acknowledged
    232, // 90 octets
    266, // 90 octets, acknowledged
    234, // 91 octets
    268, // 91 octets, acknowledged
    236, // 92 octets
    270, // 92 octets, acknowledged
    238, // 93 octets
    272, // 93 octets, acknowledged
    240, // 94 octets
    274, // 94 octets, acknowledged
    242, // 95 octets
    276, // 95 octets, acknowledged
    244, // 96 octets
    278, // 96 octets, acknowledged
    246, // 97 octets
    280, // 97 octets, acknowledged
    248, // 98 octets
    282, // 98 octets, acknowledged
    250, // 99 octets
    284, // 99 octets, acknowledged
    252, // 100 octets
    286, // 100 octets, acknowledged
    254, // 101 octets
    288, // 101 octets, acknowledged
    256, // 102 octets
    290, // 102 octets, acknowledged
    258, // 103 octets
    292, // 103 octets, acknowledged
    260, // 104 octets
    294, // 104 octets, acknowledged
    262, // 105 octets
    296, // 105 octets, acknowledged
    264, // 106 octets
    298, // 106 octets, acknowledged
    266, // 107 octets
    300, // 107 octets, acknowledged
    268, // 108 octets
    302, // 108 octets, acknowledged
    270, // 109 octets
    304, // 109 octets, acknowledged
    272, // 110 octets
    306, // 110 octets, acknowledged
    274, // 111 octets
    308, // 111 octets, acknowledged
    276, // 112 octets
    310, // 112 octets, acknowledged
    278, // 113 octets
    312, // 113 octets, acknowledged
    280, // 114 octets
    314, // 114 octets, acknowledged
    282, // 115 octets
    316, // 115 octets, acknowledged
    284, // 116 octets
    318, // 116 octets, acknowledged
    286, // 117 octets
    320, // 117 octets, acknowledged
    288, // 118 octets
    322, // 118 octets, acknowledged
    290, // 119 octets
    324, // 119 octets, acknowledged
    292, // 120 octets
    326, // 120 octets, acknowledged
    294, // 121 octets
    328, // 121 octets, acknowledged
    296, // 122 octets
    330, // 122 octets, acknowledged
    298, // 123 octets
    332, // 123 octets, acknowledged
    300, // 124 octets
    334, // 124 octets, acknowledged
    302, // 125 octets
    336, // 125 octets, acknowledged
    304, // 126 octets
    338, // 126 octets, acknowledged
    306, // 127 octets
    340, // 127 octets, acknowledged
];

// X for a frame of that many octets, 6 to 127. For any other count: 340, the longest of all exchanges, so that nothing that is
// planned with it comes out too short.
#[tactic(auto, unfolding(superframe_model::specs::Exchange::exchange_for, superframe_model::specs::ExchangeTable::InOrder, superframe_model::specs::ExchangeTable::entry_index))]
pub fn exchange_time(octets: u64, acknowledged: bool) -> Symbols
    ensures { result ≡ exchange_for octets acknowledged }
{
    if octets < 6 || 127 < octets {
        return Symbols(LONGEST);
    }
    table_entry(2 * (octets - 6) + u64::from(acknowledged))
}

// An entry of the table, counted from 0. M rises from 6 to 127, two entries for each: without acknowledgement and then with, so that entry
// 2 × (M − 6) is X of M octets, and the one behind it X of M octets acknowledged. There are 244; for any other: 340.
pub fn table_entry(index: u64) -> Symbols
    ensures value { result ≡ entry_for index }
    ensures in_order { InOrder index result }
{
    if index < 244 {
        Symbols(u64::from(TABLE[index as usize]))
    } else {
        Symbols(LONGEST)
    }
}
