// Pages of a small deck: the tables as a person wrote them, and below each the picture that `--svg` draws.
use crate::hear::reports::DECK;
use crate::hear::statuses::Mfhear;
use std::alloc::Global;
use std::test::Fail;
use test_kit::written;

const HEAD: &str = "<!DOCTYPE html>
<html lang=\"en\">
<head>
<meta charset=\"utf-8\"/>
<meta name=\"viewport\" content=\"width=device-width\"/>
<title>What the register heard</title>
<style>
:root{color-scheme:light dark;font-family:Helvetica,Arial,sans-serif}
body{max-width:1304px;margin:2em auto;padding:0 1em}
nav p{max-height:9em;overflow:auto}
table{border-collapse:collapse}
th,td{padding:.2em .8em;text-align:right;border-bottom:1px solid #8884}
[colspan],td:last-child{text-align:left}
td[colspan]{white-space:pre-line}
svg{max-width:100%;height:auto;margin:1em 0}
@media(max-width:600px){section{overflow-x:auto}table{white-space:nowrap}svg{max-width:none}}
@media(prefers-color-scheme:dark){svg{filter:invert(.9) hue-rotate(180deg)}}
</style>
</head>
<body>
<h1>What the register heard</h1>
<p>limits in ms: break 20 to 90, make from 15, pause from 180, release from 300, time-out from 20000
</p>
";

// The lists of the lines: line 7 dials a number, and lines 8 and 10 are refused.
const LIST: &str = "<nav>
<p>Lines with a refused attempt:
<a href=\"#line0008\">0008</a>
<a href=\"#line0010\">0010</a>
</p>
<p>Other lines:
<a href=\"#line0007\">0007</a>
</p>
</nav>
";

const LIST_OF_REFUSED: &str = "<nav>
<p>Lines with a refused attempt:
<a href=\"#line0008\">0008</a>
<a href=\"#line0010\">0010</a>
</p>
</nav>
";

const COLUMNS: &str =
    "<tr><th>digit</th><th>pulses</th><th>p/s</th><th>% break</th><th>break ms</th>\
<th>make ms</th><th>pause ms</th><th></th></tr>
";

// The number of a line, and the rows of its table.
const SEVEN: (&str, &str) = (
    "0007",
    "<tr><th colspan=\"8\">
line 0007, attempt 1 from 0.700 s, record 4: NUMBER 0
</th></tr>
<tr><td>      0</td><td>10</td><td>10.3</td><td>61.7</td><td>60</td><td>15-40</td><td>20000</td><td></td></tr>
<tr><td colspan=\"8\">  nothing more is heard after a make of 20000 ms at 2.035 s, record 24
  the record ends
</td></tr>
",
);

const EIGHT: (&str, &str) = (
    "0008",
    "<tr><th colspan=\"8\">
line 0008, attempt 1 from 0.000 s, record 2: REFUSED MUTILATED 0
</th></tr>
<tr><td>      x</td><td>2</td><td>11.1</td><td>66.7</td><td>60-91</td><td>30</td><td>200</td>\
<td>break 91 ms &gt; 90 at 0.590 s, record 27</td></tr>
<tr><td colspan=\"8\">  pulses that no pause ended: 1, from 0.881 s, record 29
  hung up for 300 ms at 0.961 s, record 31
</td></tr>
<tr><th colspan=\"8\">
line 0008, attempt 2 from 1.261 s, record 33: REFUSED ABANDONED 0
</th></tr>
<tr><td colspan=\"8\">  the record ends
</td></tr>
",
);

const TEN: (&str, &str) = (
    "0010",
    "<tr><th colspan=\"8\">
line 0010, attempt 1 from 0.000 s, record 34: REFUSED MUTILATED 0
</th></tr>
<tr><td>      x</td><td>1</td><td>-</td><td>-</td><td>91</td><td>-</td><td>200</td>\
<td>break 91 ms &gt; 90 at 0.500 s, record 35</td></tr>
<tr><td>      x</td><td>2</td><td>10.0</td><td>60.0</td><td>60-125</td><td>40</td><td>600</td>\
<td>ignored; break 125 ms &gt; 90 at 0.891 s, record 39</td></tr>
<tr><td>      1</td><td>1</td><td>-</td><td>-</td><td>60</td><td>-</td><td>200</td><td>ignored</td></tr>
<tr><td colspan=\"8\">  the record ends
</td></tr>
",
);

// The words before those that ask for a page, its list, and the lines that it has.
const PAGES: &[(&[&str], &str, &[(&str, &str)])] = &[
    (&[], LIST, &[SEVEN, EIGHT, TEN]),
    (&["--refused"], LIST_OF_REFUSED, &[EIGHT, TEN]),
    (&["--line", "8"], "", &[EIGHT]),
];

// The section of a line.
fn push_section(alloc: Global, page: &mut Vec<u8>, line: &str, rows: &str) -> Result<(), Fail> {
    page.extend_from_slice(b"<section id=\"line")?;
    page.extend_from_slice(line.as_bytes())?;
    page.extend_from_slice(b"\">\n<h2>Line ")?;
    page.extend_from_slice(line.as_bytes())?;
    page.extend_from_slice(b"</h2>\n<table>\n")?;
    page.extend_from_slice(COLUMNS.as_bytes())?;
    page.extend_from_slice(rows.as_bytes())?;
    page.extend_from_slice(b"</table>\n")?;
    page.extend_from_slice(&written(alloc, &Mfhear, &["--line", line, "--svg"], DECK)?)?;
    page.extend_from_slice(b"</section>\n")?;
    Ok(())
}

#[test]
fn pages_are_as_written(rt: HostRuntime) -> Result<(), Fail> {
    for (words, list, lines) in PAGES {
        let mut want = Vec::new(rt.alloc());
        want.extend_from_slice(HEAD.as_bytes())?;
        want.extend_from_slice(list.as_bytes())?;
        for (line, rows) in *lines {
            push_section(rt.alloc(), &mut want, line, rows)?;
        }
        want.extend_from_slice(b"</body>\n</html>\n")?;
        let mut all = words.to_vec(rt.alloc())?;
        all.push("--html")?;
        let got = written(rt.alloc(), &Mfhear, &all, DECK)?;
        assert!(rt; got.as_slice() == want.as_slice(), "{words:?}");
    }
    Ok(())
}
