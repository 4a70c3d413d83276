// WAV files as sox writes them into a pipe, and what is heard of them. A program of Python alone reckons it: it makes
// the weights by the formula of DEFINITIONS.
use std::test::Fail;
use xb_rx::{Source, UNKNOWN_SAMPLES, open_wav};

// Of 48,000 samples a second and two channels: 7,100 Hz, and 900 Hz.
const TWO_TONES: &[u8] =
    b"RIFF$\xf0\xff\x7fWAVEfmt \x10\0\0\0\x01\0\x02\0\x80\xbb\0\0\0\xee\x02\0\x04\0\x10\0da\
ta\0\xf0\xff\x7f\0\0\0\0\x9bH\xa7\n\xe3V'\x15]\x1f]\x1f\xa5\xce$)\x94\xa5X2&\xc5\xda:\
\0\x14\x8bB\xc8RPI\x10O\x10O\xd4\x0b\xb8S\x17\xbf7W\x80\xa6\x80Y\xcf\xd5\x8cZ\x03'VZ\xe0\
X\xe0XWC/V\xb5\xf7KR\xbc\xb2DM\xd6\xab*G\x8c\xe8\x13@\x1a8\x1a8\x96ZY/M4\xf0%\xff\xe3\
\x01\x1c1\xaa\xae\x11R\xb5\x1c\x07q\xfcq\xfclF\xd3\xf1\xd4Wg\xe7\xad\"S\xdd\xab\xd1\xb9\
\xd3\xe1\xa5\xbd\xca}\xc2}\xc2\x83\x10\x18\xbbFQ\xa8\xb4\xbePB\xafY\x0f\xfc\xaa\xa0\xc1\
\xe3\xa7\x03\xa6\x03\xa6\xb1\xd2b\xa5\xc5#\x03\xa6\x1dX\xe3\xa7\xacE\xfc\xaaB\xfbB\xaf\
\xa8\xb4\xa8\xb4\x95\xaa\x18\xbb!\xe5}\xc2C5\xbd\xca\x9cZ\xb9\xd3*7S\xddg\xe7g\xe7g\xab\
\xd3\xf1]\xb3q\xfc\xe4\xf8\x1c\x07!D\xae\x11\xa3X\x01\x1c\xf0%\xf0%\xc3\xd4Y/R\xa6\x1a\
8\xed\xbf\x13@\x01\r*G\xa3ODMKRKR\xd7\x12/VA\xc4\xe0X\xaa\xa5VZ\xa5\xcf\x8cZy \x80Y7W\
7W\xe4G\xb8S\xd0\xfe\x10O";

// A square wave of 24,000 samples a second, by mu-law: its sum by the weights goes beyond 16 bits.
const SQUARE: &[u8] =
    b"RIFF2\xf0\xff\x7fWAVEfmt \x12\0\0\0\x07\0\x01\0\xc0]\0\0\xc0]\0\0\x01\0\x08\0\0\0fact\
\x04\0\0\0\0\xf0\xff\x7fdata\0\xf0\xff\x7f\x83\x83\x83\x83\x83\x83\x83\x83\x83\x83\x83\
\x83\x03\x03\x03\x03\x03\x03\x03\x03\x03\x03\x03\x03\x83\x83\x83\x83\x83\x83\x83\x83\x83\
\x83\x83\x83\x03\x03";

// Of 16,000 samples a second, of 8 bits.
const SAWTOOTH: &[u8] =
    b"RIFF$\xf0\xff\x7fWAVEfmt \x10\0\0\0\x01\0\x01\0\x80>\0\0\x80>\0\0\x01\0\x08\0data\0\xf0\
\xff\x7f\x01\x15*?Sh}\x92\xa6\xbb\xd0\xe4\xf9\x0f$8Mbv\x8b\xa0\xb5\xc9\xde\xf3\x08\x1d\
2G[";

// A file whose samples have a length of 0, as where its writer never went back.
const PIPED: &[u8] =
    b"RIFF\x24\0\0\0WAVEfmt \x10\0\0\0\x01\0\x01\0\x40\x1f\0\0\x80\x3e\0\0\x02\0\x10\0\
data\0\0\0\0\x2c\x01\xd4\xfe";

// A file, a channel and its samples.
const SOUNDS: &[(&[u8], usize, &[i16])] = &[
    (
        TWO_TONES,
        0,
        &[7, -41, -86, 4_080, -83, -35, 12, 2, -2, -5, -5, -3],
    ),
    (
        TWO_TONES,
        1,
        &[
            -12, 140, -392, 1_901, 14_658, 23_028, 19_746, 7_161, -8_868, -20_648, -22_533, -13_621,
        ],
    ),
    (
        SQUARE,
        0,
        &[
            46, 188, -1_369, 19_005, 30_927, 28_181, 31_838, -8_953, -32_768, -27_682, -31_881,
            8_953,
        ],
    ),
    (
        SAWTOOTH,
        0,
        &[
            -108, 60, 830, -22_803, -24_299, -10_794, -739, 8_696, 24_499, 13_435, -25_731,
            -12_987, -2_192, 7_058, 22_886,
        ],
    ),
    (PIPED, 0, &[300, -300]),
];

// Fails where a file is not heard as these samples.
fn check_sound(file: &[u8], channel: usize, samples: &[i16]) -> Result<(), Fail> {
    let mut rest = file;
    let start = match open_wav(&mut rest, channel) {
        Ok(start) => start,
        Err(_) => return Err("not opened".into()),
    };
    if start.counted || start.samples != UNKNOWN_SAMPLES {
        return Err("a known length".into());
    }
    let mut source = Source::new(rest, start);
    for sample in samples {
        match source.next_sample() {
            Ok(Some(found)) if found == *sample => {}
            _ => return Err("another sample".into()),
        }
    }
    match source.next_sample() {
        Ok(None) => Ok(()),
        _ => Err("more samples".into()),
    }
}

#[test]
fn hears_sounds_through_the_filter(rt: HostRuntime) -> Result<(), Fail> {
    for (file, channel, samples) in SOUNDS {
        check_sound(file, *channel, samples)?;
    }
    Ok(())
}
