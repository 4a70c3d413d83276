// The weights by which a sound of more than 8,000 samples a second is filtered.
ghost use Rattle.std.specs.Prelude.{◌≡◌, ◌<◌, ◌≤◌, unsigned_abs};
ghost use Rattle.xb_rx.specs.Weights.{weight_at};

// How many weights there are: 24 for each of 8 samples of 8,000 a second.
pub(crate) const WEIGHTS_IN_ALL: usize = 192;

// A low-pass of 3,700 Hz at 192,000 samples a second; DEFINITIONS says how it is reckoned.
static WEIGHTS: [i16; WEIGHTS_IN_ALL] = [
    0, -7, -10, -12, -15, -18, -20, -23, -26, -28, -29, -30, -30, -29, -27, -23, -18, -11, -2, 9,
    22, 37, 54, 72, 92, 113, 135, 157, 180, 202, 223, 242, 258, 271, 280, 285, 283, 276, 262, 240,
    210, 172, 126, 71, 7, -64, -143, -230, -322, -419, -519, -621, -724, -824, -920, -1010, -1092,
    -1162, -1218, -1258, -1279, -1279, -1255, -1206, -1129, -1023, -886, -717, -516, -282, -15,
    283, 613, 971, 1358, 1769, 2203, 2656, 3125, 3605, 4093, 4583, 5072, 5554, 6025, 6480, 6914,
    7323, 7701, 8046, 8354, 8620, 8841, 9017, 9143, 9220, 9245, 9220, 9143, 9017, 8841, 8620, 8354,
    8046, 7701, 7323, 6914, 6480, 6025, 5554, 5072, 4583, 4093, 3605, 3125, 2656, 2203, 1769, 1358,
    971, 613, 283, -15, -282, -516, -717, -886, -1023, -1129, -1206, -1255, -1279, -1279, -1258,
    -1218, -1162, -1092, -1010, -920, -824, -724, -621, -519, -419, -322, -230, -143, -64, 7, 71,
    126, 172, 210, 240, 262, 276, 283, 285, 280, 271, 258, 242, 223, 202, 180, 157, 135, 113, 92,
    72, 54, 37, 22, 9, -2, -11, -18, -23, -27, -29, -30, -30, -29, -28, -26, -23, -20, -18, -15,
    -12, -10, -7,
];

/// The weight at a place.
pub(crate) fn weight_at(place: usize) -> i16
    requires { place < 192 }
    ensures value { result ≡ weight_at place }
    ensures bound { unsigned_abs result ≤ 9245 }
{
    WEIGHTS[place]
}
