// WAV files that sox wrote.
use std::test::Fail;
use xb_riff::WavHead;

// Of mu-law, of eight bits, and of three channels of 16 bits, extended: a file, and its first samples by
// `sox FILE -t dat -`, times 32,768. Of A-law, all 256 codes, in 16 bits by sox. Of 24 and 32 bits, extended, and of
// floats: samples of Python's, rounded by it as DEFINITIONS says. The last floats are halves of a step, what is too small
// and too great, and no numbers.
const FILES: &[(&[u8], &[i16])] = &[
    (
        b"RIFF\x34\0\0\0WAVEfmt \x12\0\0\0\x07\0\x01\0\x40\x1f\0\0\x40\x1f\0\0\x01\0\x08\0\0\0\
fact\x04\0\0\0\x01\0\0\0data\x01\0\0\0\xbc\0",
        &[2_364],
    ),
    (
        b"RIFF\x26\0\0\0WAVEfmt \x10\0\0\0\x01\0\x01\0\x40\x1f\0\0\x40\x1f\0\0\x01\0\x08\0\
data\x01\0\0\0\x8c\0",
        &[3_072],
    ),
    (
        b"RIFF\x4e\0\0\0WAVEfmt \x28\0\0\0\xfe\xff\x03\0\x40\x1f\0\0\x80\xbb\0\0\x06\0\x10\0\
\x16\0\x10\0\0\0\0\0\x01\0\0\0\0\0\x10\0\x80\0\0\xaa\0\x38\x9b\x71\
fact\x04\0\0\0\x01\0\0\0data\x06\0\0\0\x05\x06\xb4\x07\xce\x32",
        &[1_541, 1_972, 13_006],
    ),
    (
        b"RIFF2\x01\0\0WAVEfmt \x12\0\0\0\x06\0\x01\0@\x1f\0\0@\x1f\0\0\x01\0\x08\0\0\0fact\x04\0\
\0\0\0\x01\0\0data\0\x01\0\0\0\x01\x02\x03\x04\x05\x06\x07\x08\x09\x0a\x0b\x0c\x0d\x0e\
\x0f\x10\x11\x12\x13\x14\x15\x16\x17\x18\x19\x1a\x1b\x1c\x1d\x1e\x1f !\"#$%&'()*+,-./012\
3456789:;<=>?@ABCDEFGHIJKLMNOPQRSTUVWXYZ[\\]^_`abcdefghijklmnopqrstuvwxyz{|}~\x7f\x80\
\x81\x82\x83\x84\x85\x86\x87\x88\x89\x8a\x8b\x8c\x8d\x8e\x8f\x90\x91\x92\x93\x94\x95\x96\
\x97\x98\x99\x9a\x9b\x9c\x9d\x9e\x9f\xa0\xa1\xa2\xa3\xa4\xa5\xa6\xa7\xa8\xa9\xaa\xab\xac\
\xad\xae\xaf\xb0\xb1\xb2\xb3\xb4\xb5\xb6\xb7\xb8\xb9\xba\xbb\xbc\xbd\xbe\xbf\xc0\xc1\xc2\
\xc3\xc4\xc5\xc6\xc7\xc8\xc9\xca\xcb\xcc\xcd\xce\xcf\xd0\xd1\xd2\xd3\xd4\xd5\xd6\xd7\xd8\
\xd9\xda\xdb\xdc\xdd\xde\xdf\xe0\xe1\xe2\xe3\xe4\xe5\xe6\xe7\xe8\xe9\xea\xeb\xec\xed\xee\
\xef\xf0\xf1\xf2\xf3\xf4\xf5\xf6\xf7\xf8\xf9\xfa\xfb\xfc\xfd\xfe\xff",
        &[
            -5_504, -5_248, -6_016, -5_760, -4_480, -4_224, -4_992, -4_736, -7_552, -7_296, -8_064,
            -7_808, -6_528, -6_272, -7_040, -6_784, -2_752, -2_624, -3_008, -2_880, -2_240, -2_112,
            -2_496, -2_368, -3_776, -3_648, -4_032, -3_904, -3_264, -3_136, -3_520, -3_392,
            -22_016, -20_992, -24_064, -23_040, -17_920, -16_896, -19_968, -18_944, -30_208,
            -29_184, -32_256, -31_232, -26_112, -25_088, -28_160, -27_136, -11_008, -10_496,
            -12_032, -11_520, -8_960, -8_448, -9_984, -9_472, -15_104, -14_592, -16_128, -15_616,
            -13_056, -12_544, -14_080, -13_568, -344, -328, -376, -360, -280, -264, -312, -296,
            -472, -456, -504, -488, -408, -392, -440, -424, -88, -72, -120, -104, -24, -8, -56,
            -40, -216, -200, -248, -232, -152, -136, -184, -168, -1_376, -1_312, -1_504, -1_440,
            -1_120, -1_056, -1_248, -1_184, -1_888, -1_824, -2_016, -1_952, -1_632, -1_568, -1_760,
            -1_696, -688, -656, -752, -720, -560, -528, -624, -592, -944, -912, -1_008, -976, -816,
            -784, -880, -848, 5_504, 5_248, 6_016, 5_760, 4_480, 4_224, 4_992, 4_736, 7_552, 7_296,
            8_064, 7_808, 6_528, 6_272, 7_040, 6_784, 2_752, 2_624, 3_008, 2_880, 2_240, 2_112,
            2_496, 2_368, 3_776, 3_648, 4_032, 3_904, 3_264, 3_136, 3_520, 3_392, 22_016, 20_992,
            24_064, 23_040, 17_920, 16_896, 19_968, 18_944, 30_208, 29_184, 32_256, 31_232, 26_112,
            25_088, 28_160, 27_136, 11_008, 10_496, 12_032, 11_520, 8_960, 8_448, 9_984, 9_472,
            15_104, 14_592, 16_128, 15_616, 13_056, 12_544, 14_080, 13_568, 344, 328, 376, 360,
            280, 264, 312, 296, 472, 456, 504, 488, 408, 392, 440, 424, 88, 72, 120, 104, 24, 8,
            56, 40, 216, 200, 248, 232, 152, 136, 184, 168, 1_376, 1_312, 1_504, 1_440, 1_120,
            1_056, 1_248, 1_184, 1_888, 1_824, 2_016, 1_952, 1_632, 1_568, 1_760, 1_696, 688, 656,
            752, 720, 560, 528, 624, 592, 944, 912, 1_008, 976, 816, 784, 880, 848,
        ],
    ),
    (
        b"RIFF`\0\0\0WAVEfmt (\0\0\0\xfe\xff\x01\0@\x1f\0\0\xc0]\0\0\x03\0\x18\0\x16\0\x18\0\x04\0\
\0\0\x01\0\0\0\0\0\x10\0\x80\0\0\xaa\0\x38\x9bqfact\x04\0\0\0\x08\0\0\0data\x18\0\0\0\0\
\0\x80\xff\xff\x7f\xff\xff\xff\xff\0\0\0\x01\0h\xcd%\x1a<\xcdN&J",
        &[-32_768, 32_767, -1, 0, 1, 9_677, -12_996, 18_982],
    ),
    (
        b"RIFFh\0\0\0WAVEfmt (\0\0\0\xfe\xff\x01\0@\x1f\0\0\0}\0\0\x04\0 \0\x16\0 \0\x04\0\0\0\x01\
\0\0\0\0\0\x10\0\x80\0\0\xaa\0\x38\x9bqfact\x04\0\0\0\x08\0\0\0data \0\0\0\0\0\0\x80\xff\
\xff\xff\x7f\xff\xff\xff\xff\xff\xff\0\0\0\0\x01\0P\xa4\xa3&+\x90/\x09\xf5N\xe7\x01",
        &[-32_768, 32_767, -1, 0, 1, 9_891, 2_351, 487],
    ),
    (
        b"RIFF\x82\0\0\0WAVEfmt \x12\0\0\0\x03\0\x01\0@\x1f\0\0\0}\0\0\x04\0 \0\0\0fact\x04\0\0\0\
\x14\0\0\0dataP\0\0\0\0\0\x80>\0\0\x80\xbe\0\0\x80?\0\0\x80\xbfX\xff\x7f?\0\0 @\xca\xf2I\
\xf1\0\0\x807\0\0\x80\xb7\0\0@8\0\0\xa0\xb8\xde\xff\x7f7\x01\0\0\0\0\0\0\x80\x9a\x99\x99\
>333\xbf\0\0\xc0\x7f\x01\0\x80\xff\0\0\x80\x7f\0\0\x80\xff",
        &[
            8_192, -8_192, 32_767, -32_768, 32_767, 32_767, -32_768, 1, -1, 2, -3, 0, 0, 0, 9_830,
            -22_938, 0, 0, 32_767, -32_768,
        ],
    ),
];

// Fails where a file has no head, or other samples.
fn check_file(file: &[u8], samples: &[i16]) -> Result<(), Fail> {
    let mut head = WavHead::new();
    let (format, at) = match head.take(file) {
        Ok(Some(found)) => found,
        _ => return Err("no head".into()),
    };
    let mut rest = &file[at..];
    for sample in samples {
        if rest.len() < format.coding.width() {
            return Err("no sample".into());
        }
        if format.coding.sample_of(rest) != *sample {
            return Err("another sample".into());
        }
        rest = &rest[format.coding.width()..];
    }
    Ok(())
}

#[test]
fn reads_files_of_sox(rt: HostRuntime) -> Result<(), Fail> {
    for (file, samples) in FILES {
        check_file(file, samples)?;
    }
    Ok(())
}
