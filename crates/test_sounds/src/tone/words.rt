// The words of each fault, as the table of faults has them.
use std::test::Fail;
use test_kit::check_texts;
use xb_page::PageFault;
use xb_signal::{KeysFault, Place};
use xb_sound::CadenceFault;
use xb_tone::{AtFault, LineFault, ToneFault};

const WORDS: &[(ToneFault, &str)] = &[
    (
        ToneFault::Cadence(CadenceFault::Lead),
        "cadence: the silence before KP is too long",
    ),
    (
        ToneFault::Cadence(CadenceFault::Kp),
        "cadence: the tone of KP has 0 ms or is too long",
    ),
    (
        ToneFault::Cadence(CadenceFault::Key),
        "cadence: the tone of a digit has 0 ms or is too long",
    ),
    (
        ToneFault::Cadence(CadenceFault::Gap),
        "cadence: the silence after a tone is too long",
    ),
    (
        ToneFault::Keys(KeysFault::NoWord(Place { word: 2, byte: 4 })),
        "keys: word 2, at byte 4, is no key and no sound",
    ),
    (
        ToneFault::Keys(KeysFault::Loud(Place { word: 3, byte: 10 })),
        "keys: word 3, at byte 10, is too loud for 16 bits",
    ),
    (
        ToneFault::Keys(KeysFault::NoWords),
        "keys: there is no word",
    ),
    (ToneFault::Keys(KeysFault::NoMemory), "keys: out of memory"),
    (ToneFault::Read, "the page could not be read"),
    (ToneFault::TooLong, "the page is longer than 67108864 bytes"),
    (
        ToneFault::Page(PageFault::Line(1)),
        "text line 1 has a wrong line",
    ),
    (
        ToneFault::Page(PageFault::Early(12)),
        "text line 12 has a wrong line",
    ),
    (
        ToneFault::Page(PageFault::Number(2)),
        "text line 2 has a wrong entry number",
    ),
    (
        ToneFault::Page(PageFault::Kind(3)),
        "text line 3 is neither KEYED nor REFUSED",
    ),
    (
        ToneFault::Page(PageFault::Key(4)),
        "text line 4 has a wrong trunk group or key",
    ),
    (
        ToneFault::Page(PageFault::Refusal(5)),
        "text line 5 has a wrong refusal",
    ),
    (
        ToneFault::Page(PageFault::Totals(6)),
        "text line 6 has wrong totals",
    ),
    (
        ToneFault::Page(PageFault::NoTotals(7)),
        "the page ends at text line 7 without its totals",
    ),
    (
        ToneFault::Page(PageFault::GoesOn(8)),
        "text stands after the totals of text line 8",
    ),
    (ToneFault::Page(PageFault::NoMemory), "out of memory"),
    (
        ToneFault::At(AtFault::Read),
        "the entries could not be read",
    ),
    (
        ToneFault::At(AtFault::TooLong),
        "the entries are longer than 67108864 bytes",
    ),
    (
        ToneFault::At(AtFault::TextLine(9, LineFault::NoObject)),
        "text line 9 is no JSON object",
    ),
    (
        ToneFault::At(AtFault::TextLine(10, LineFault::NoKind)),
        "text line 10 has no entry, event or totals of mflive --json",
    ),
    (
        ToneFault::At(AtFault::TextLine(11, LineFault::NoPlace)),
        "text line 11 has an entry without its line, entry and at_ms",
    ),
    (
        ToneFault::At(AtFault::TextLine(12, LineFault::NoKeying)),
        "text line 12 has a keyed entry without its trunk and sent",
    ),
    (
        ToneFault::At(AtFault::TextLine(13, LineFault::NoRefusal)),
        "text line 13 has a refused entry without its reason and heard",
    ),
    (
        ToneFault::At(AtFault::TextLine(16, LineFault::Totals)),
        "text line 16 has totals that are not those of the entries",
    ),
    (
        ToneFault::At(AtFault::TextLine(17, LineFault::GoesOn)),
        "text line 17 has the totals, and text stands after them",
    ),
    (
        ToneFault::At(AtFault::TextLine(18, LineFault::NoTotals)),
        "text line 18 is missing: the totals of mflive --json end the entries",
    ),
    (
        ToneFault::At(AtFault::TextLine(14, LineFault::NoMemory)),
        "text line 14 out of memory",
    ),
    (ToneFault::At(AtFault::NoEntry), "there is no such entry"),
    (
        ToneFault::At(AtFault::Early(15)),
        "text line 15 has a time before that of the entry before it: lines have times of their own, --line N takes one",
    ),
    (
        ToneFault::At(AtFault::Untold),
        "what is cut could not be told",
    ),
    (ToneFault::NoEntry, "the page has no such entry"),
    (ToneFault::Refused, "none of the calls asked for is keyed"),
    (
        ToneFault::TooLongSound,
        "the sound is too long for a WAV file",
    ),
    (ToneFault::NoMemory, "out of memory"),
    (
        ToneFault::CutShort,
        "out of memory, after the beginning of the sound",
    ),
    (ToneFault::Write, "the sound could not be written"),
];

#[test]
fn words_of_faults(rt: HostRuntime) -> Result<(), Fail> {
    check_texts(rt.alloc(), WORDS)
}
