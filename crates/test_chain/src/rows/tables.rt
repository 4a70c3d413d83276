// Decks read of streams: the table first, and then the rows.
use std::io::ErrorKind;
use test_kit::Halting;
use xb_deck::{TableFault, read_table};
use xb_rows::RowReader;

const TABLE: &[u8] = b"# no route\n-- -\r\n";

const DECK: &[u8] = b"# no route\n-- -\r\n---\r\nline,state,ms\n7,M,500\n";

// How many bytes of the deck end with the line that cuts it.
const CUT_END: usize = 22;

#[test]
fn reads_a_deck_as_a_stream(rt: HostRuntime) {
    for step in [1, 7, 100] {
        let mut stream = Halting::new(DECK, step);
        let table = read_table(rt.alloc(), &mut stream, TABLE.len());
        assert!(rt;
            table.is_ok_and(|table| table.as_slice() == TABLE),
            "by {step}"
        );
        let mut reader = RowReader::new(&mut stream, 1);
        assert!(rt;
            reader
                .next_row()
                .is_ok_and(|row| row.is_some_and(|row| row.ms() == 500))
        );
        assert!(rt; reader.next_row().is_ok_and(|row| row.is_none()));
    }
}

#[test]
fn reads_no_byte_after_the_cut(rt: HostRuntime) {
    let mut stream = Halting::failing(DECK, 100, CUT_END, ErrorKind::Other);
    let table = read_table(rt.alloc(), &mut stream, 1000);
    assert!(rt; table.is_ok_and(|table| table.as_slice() == TABLE));
    let mut stream = Halting::failing(DECK, 100, CUT_END - 1, ErrorKind::Interrupted);
    assert!(rt; read_table(rt.alloc(), &mut stream, 1000).err() == Some(TableFault::Read));
}

#[test]
fn names_what_is_no_table(rt: HostRuntime) {
    let mut stream = DECK;
    assert!(rt;
        read_table(rt.alloc(), &mut stream, TABLE.len() - 1).err()
            == Some(TableFault::TooLong(TABLE.len() - 1))
    );
    let mut stream = b"a line that goes on beyond the limit".as_slice();
    assert!(rt; read_table(rt.alloc(), &mut stream, 20).err() == Some(TableFault::TooLong(20)));
    let mut stream = b"# no cut\n--".as_slice();
    assert!(rt; read_table(rt.alloc(), &mut stream, 20).err() == Some(TableFault::NoCut));
    let mut stream = b"---".as_slice();
    assert!(rt; read_table(rt.alloc(), &mut stream, 0).is_ok_and(|table| table.is_empty()));
}
