// Levels in dBm0.
ghost use Rattle.std.specs.Prelude.{◌≡◌, ◌≤◌, IfOk, length, string_bytes};
ghost use Rattle.xb_measured.specs.Levels.{count_up_to, decimal_tenths, tenths_of, tenths_text};

use std::alloc::{AllocError, Global};

// Powers of ten.
static POWERS: [u64; 12] = [
    10,
    100,
    1_000,
    10_000,
    100_000,
    1_000_000,
    10_000_000,
    100_000_000,
    1_000_000_000,
    10_000_000_000,
    100_000_000_000,
    1_000_000_000_000,
];

// From these on, of 10^12 to 10^13, each next tenth of a dB is the nearest: see `has_reached`.
static STEPS: [u64; 100] = [
    1_004_322_892_929,
    1_027_716_578_321,
    1_051_655_172_647,
    1_076_151_368_465,
    1_101_218_153_984,
    1_126_868_819_944,
    1_153_116_966_668,
    1_179_976_511_272,
    1_207_461_695_040,
    1_235_587_090_982,
    1_264_367_611_555,
    1_293_818_516_571,
    1_323_955_421_290,
    1_354_794_304_698,
    1_386_351_517_979,
    1_418_643_793_186,
    1_451_688_252_110,
    1_485_502_415_360,
    1_520_104_211_654,
    1_555_511_987_322,
    1_591_744_516_035,
    1_628_821_008_760,
    1_666_761_123_944,
    1_705_584_977_938,
    1_745_313_155_663,
    1_785_966_721_526,
    1_827_567_230_584,
    1_870_136_739_978,
    1_913_697_820_627,
    1_958_273_569_190,
    2_003_887_620_321,
    2_050_564_159_192,
    2_098_327_934_324,
    2_147_204_270_700,
    2_197_219_083_203,
    2_248_398_890_347,
    2_300_770_828_344,
    2_354_362_665_488,
    2_409_202_816_882,
    2_465_320_359_498,
    2_522_745_047_602,
    2_581_507_328_522,
    2_641_638_358_798,
    2_703_170_020_698,
    2_766_134_939_123,
    2_830_566_498_908,
    2_896_498_862_517,
    2_963_966_988_163,
    3_033_006_648_338,
    3_103_654_448_786,
    3_175_947_847_903,
    3_249_925_176_609,
    3_325_625_658_660,
    3_403_089_431_456,
    3_482_357_567_314,
    3_563_472_095_248,
    3_646_476_023_255,
    3_731_413_361_117,
    3_818_329_143_734,
    3_907_269_455_004,
    3_998_281_452_258,
    4_091_413_391_262,
    4_186_714_651_802,
    4_284_235_763_868,
    4_384_028_434_445,
    4_486_145_574_927,
    4_590_641_329_174,
    4_697_571_102_218,
    4_806_991_589_641,
    4_918_960_807_632,
    5_033_538_123_753,
    5_150_784_288_415,
    5_270_761_467_084,
    5_393_533_273_251,
    5_519_164_802_151,
    5_647_722_665_283,
    5_779_275_025_730,
    5_913_891_634_292,
    6_051_643_866_479,
    6_192_604_760_347,
    6_336_849_055_227,
    6_484_453_231_355,
    6_635_495_550_418,
    6_790_056_097_053,
    6_948_216_821_307,
    7_110_061_582_091,
    7_275_676_191_638,
    7_445_148_461_008,
    7_618_568_246_639,
    7_796_027_497_998,
    7_977_620_306_330,
    8_163_442_954_544,
    8_353_593_968_268,
    8_548_174_168_088,
    8_747_286_722_999,
    8_951_037_205_116,
    9_159_533_645_639,
    9_372_886_592_142,
    9_591_209_167_182,
    9_814_617_128_276,
];

/// The tenths of a level of 0 dBm0.
pub const ZERO_DBM0: u32 = 872;

/// How many bounds a number has reached.
pub(crate) fn count_up_to(number: u128, bounds: &[u64]) -> usize
    ensures value { result ≡ count_up_to number bounds.now }
    ensures bound { result ≤ length bounds.now }
{
    bounds
        .iter()
        .filter(|bound| u128::from(**bound) <= number)
        .count()
}

// A level in tenths of a dB.
pub(crate) fn tenths_of(level: u64) -> u32
    ensures { result ≡ tenths_of level }
{
    let level = u128::from(level);
    let powers = count_up_to(level, &POWERS) as u32;
    let wide = level * 10u128.pow(12 - powers);
    let steps = count_up_to(wide, &STEPS) as u32;
    100 * powers + steps
}

// A number of tenths with one decimal.
fn decimal_tenths(alloc: Global, tenths: u32) -> Result<String, AllocError>
    ensures { IfOk result (λ text. string_bytes text ≡ decimal_tenths tenths) }
{
    let whole = tenths / 10;
    let tenth = tenths % 10;
    format!(in alloc; "{whole}.{tenth}")
}

/// What a number of tenths is over another, with a sign where it is below.
pub(crate) fn tenths_text(alloc: Global, over: u32, under: u32) -> Result<String, AllocError>
    ensures { IfOk result (λ text. string_bytes text ≡ tenths_text over under) }
{
    if over < under {
        let below = decimal_tenths(alloc, under - over)?;
        format!(in alloc; "-{below}")
    } else {
        decimal_tenths(alloc, over - under)
    }
}
