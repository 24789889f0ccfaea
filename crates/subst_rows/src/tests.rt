use crate::columns::{columns_of, first_repeated, index_of, names_of, unmatched};
use crate::error::RowsError;
use crate::json_lines::JsonLines;
use crate::json_row::json_row;
use crate::letter::{KEPT_REFUSALS, Layout, Letter, Refusal, WriteError};
use crate::lines::Lines;
use crate::quotes::open_quote;
use crate::row::{Row, Sources, append_output};
use crate::rows::{RowBuffer, Rows, RowsFormat};
use crate::table::{Table, cells_of, check};
use csv::ByteRecord;
use json::Scratch;
use std::alloc::Global;
use std::test::Fail;
use subst_filter_lib::device::{ByteOutput, Failed};
use subst_indexed::IndexedTemplate;

#[test]
fn columns_are_bound_by_name(rt: HostRuntime) -> Result<(), Fail> {
    let template = IndexedTemplate::from_slice(rt.alloc(), b"$b ${a} $c $b")?;
    let names = names_of(rt.alloc(), &template)?;
    let head: [&[u8]; 3] = [b"a", b"x", b"b"];
    let columns = columns_of(rt.alloc(), &names, &head)?;
    assert_eq!(rt; columns.as_slice(), [Some(2), Some(0), None].as_slice());
    assert_eq!(rt;
        unmatched(rt.alloc(), &head, &names)?.as_slice(),
        [1].as_slice()
    );
    assert_eq!(rt;
        unmatched(rt.alloc(), &names, &head)?.as_slice(),
        [2].as_slice()
    );
    assert_eq!(rt; index_of(&head, b"x"), Some(1));
    Ok(())
}

#[test]
fn a_name_twice_is_found(rt: HostRuntime) {
    let head: [&[u8]; 3] = [b"a", b"b", b"a"];
    assert_eq!(rt; first_repeated(&head), Some(2));
    let head: [&[u8]; 4] = [b"a", b"", b"b", b""];
    assert_eq!(rt; first_repeated(&head), None);
}

#[test]
fn a_row_is_filled_in(rt: HostRuntime) -> Result<(), Fail> {
    let template = IndexedTemplate::from_slice(rt.alloc(), b"$a-$b-${c:no}-$d")?;
    let cells: [&[u8]; 2] = [b"A", b""];
    let row = ByteRecord::from_fields(rt.alloc(), &cells)?;
    let fallback: [Option<&[u8]>; 4] = [Some(b"?"), Some(b"B"), None, Some(b"D")];
    let fixed: [Option<&[u8]>; 1] = [None];
    let columns = [Some(0), Some(1)];
    let mut sources = Sources {
        fixed: &fixed,
        columns: &columns,
        fallback: &fallback,
        no_empty: false,
    };
    let mut output = b"> ".to_vec(rt.alloc())?;
    assert!(rt; append_output(rt.alloc(), &template, &sources, &row, &mut output).is_ok());
    sources.no_empty = true;
    assert!(rt; append_output(rt.alloc(), &template, &sources, &row, &mut output).is_ok());
    assert_eq!(rt; output.as_slice(), b"> A--no-DA-B-no-D".as_slice());
    Ok(())
}

#[test]
fn a_table_is_read_row_by_row(rt: HostRuntime) {
    let text = b"\xef\xbb\xbfa,b\r\n\r\nAda,\"Rue 1\r\nParis\"\r\nBob,\"\"\r\n";
    assert_eq!(rt; check(text, b','), Ok(()));
    let mut table = Table::new(rt.alloc(), text, b',').expect(&rt, "a head");
    assert_eq!(rt; table.next_row(), Ok(true));
    assert_eq!(rt; table.line(), 3);
    assert!(rt; has_cell(table.row(), 1, b"Rue 1\r\nParis"));
    assert_eq!(rt; table.next_row(), Ok(true));
    assert_eq!(rt; table.line(), 5);
    assert!(rt; has_cell(table.row(), 0, b"Bob"));
    assert!(rt; has_cell(table.row(), 1, b""));
    assert_eq!(rt; table.next_row(), Ok(false));
    assert_eq!(rt; table.next_row(), Ok(false));
}

/// Returns whether the cell in a column of a row has these bytes.
fn has_cell<R: Row>(row: &R, column: usize, bytes: &[u8]) -> bool {
    match row.cell(column) {
        Some(cell) => cell == bytes,
        None => false,
    }
}

#[test]
fn a_table_has_a_head(rt: HostRuntime) -> Result<(), Fail> {
    let table = Table::new(rt.alloc(), b"name,\"the \"\"place\"\"\"", b',');
    let table = table.expect(&rt, "a head");
    let head = cells_of(rt.alloc(), table.head())?;
    assert_eq!(rt; head.len(), 2);
    assert_eq!(rt; head[1], b"the \"place\"".as_slice());
    Ok(())
}

#[test]
fn a_row_of_another_length_is_passed_over(rt: HostRuntime) {
    let text = b"a\tb\n1\n2\t3\n4\t5\t6";
    let mut table = Table::new(rt.alloc(), text, b'\t').expect(&rt, "a head");
    let short = RowsError::Length {
        line: 2,
        cells: 1,
        names: 2,
    };
    assert_eq!(rt; table.next_row(), Err(short));
    assert_eq!(rt; table.next_row(), Ok(true));
    let long = RowsError::Length {
        line: 4,
        cells: 3,
        names: 2,
    };
    assert_eq!(rt; table.next_row(), Err(long));
    assert_eq!(rt; table.next_row(), Ok(false));
}

#[test]
fn a_table_without_rows_has_no_head(rt: HostRuntime) {
    assert!(rt; matches!(Table::new(rt.alloc(), b"", b','), Err(RowsError::NoHead)));
    assert!(rt;
        matches!(
            Table::new(rt.alloc(), b"\n\r\n", b','),
            Err(RowsError::NoHead)
        )
    );
}

#[test]
fn a_table_is_checked(rt: HostRuntime) {
    assert_eq!(rt;
        check(b"a\nb\n\xff", b','),
        Err(RowsError::NotUtf8 { line: 3 })
    );
    let text = b"a,b\n1,\"2\"\n3,\"4\n5,6\n";
    assert_eq!(rt; check(text, b','), Err(RowsError::OpenQuote { line: 3 }));
    assert_eq!(rt; open_quote(text, b','), Some(12));
    assert_eq!(rt; check(b"a\n\"b\"\"\"", b','), Ok(()));
    assert_eq!(rt; check(b"a\nb\"", b','), Ok(()));
}

#[test]
fn line_ends_are_counted(rt: HostRuntime) {
    let mut lines = Lines::new(b"a\r\nb\rc\nd");
    assert_eq!(rt; lines.line_at(3), 2);
    assert_eq!(rt; lines.line_at(7), 4);
    assert_eq!(rt; lines.line_at(0), 1);
}

#[test]
fn lines_that_are_not_blank_are_rows(rt: HostRuntime) {
    let mut lines = JsonLines::new(b"\xef\xbb\xbf\n{\"a\": 1}\r\n \t\r\n{}");
    let line = lines.next_line().expect(&rt, "a line");
    assert_eq!(rt; line.number, 2);
    assert_eq!(rt; line.bytes, b"{\"a\": 1}\r".as_slice());
    let line = lines.next_line().expect(&rt, "a line");
    assert_eq!(rt; line.number, 4);
    assert!(rt; lines.next_line().is_none());
}

#[test]
fn a_json_line_is_a_row(rt: HostRuntime) {
    let line = b"{\"a\": \"x\\ny\", \"n\": 1.50, \"t\": true, \"z\": null}\r";
    let names: [&[u8]; 4] = [b"a", b"n", b"t", b"z"];
    let mut scratch = Scratch::new(rt.alloc());
    let row = json_row(rt.alloc(), 1, line, &names, false, &mut scratch).expect(&rt, "a row");
    assert!(rt; has_cell(&row, 0, b"x\ny"));
    assert!(rt; has_cell(&row, 1, b"1.50"));
    assert!(rt; has_cell(&row, 2, b"true"));
    assert!(rt; row.cell(3).is_none());
}

#[test]
fn json_lines_are_filled_in(rt: HostRuntime) -> Result<(), Fail> {
    let template = IndexedTemplate::from_slice(rt.alloc(), b"$a;")?;
    let output = filled(rt.alloc(), &template, b"{\"a\": 1}\n{\"a\": \"2\"}\n");
    let output = output.expect(&rt, "an output");
    assert_eq!(rt; output.as_slice(), b"1;2;".as_slice());
    Ok(())
}

/// Returns the outputs of a template for JSON lines, or `None` if there is an error.
fn filled(alloc: Global, template: &IndexedTemplate<'_>, text: &[u8]) -> Option<Vec<u8>> {
    let names = names_of(alloc, template).ok()?;
    let columns = columns_of(alloc, &names, &names).ok()?;
    let sources = Sources {
        fixed: &[],
        columns: &columns,
        fallback: &[],
        no_empty: false,
    };
    let mut output = Vec::new(alloc);
    let mut scratch = Scratch::new(alloc);
    let mut lines = JsonLines::new(text);
    for _ in 0..text.len() {
        let Some(line) = lines.next_line() else {
            break;
        };
        let row = json_row(alloc, line.number, line.bytes, &names, false, &mut scratch).ok()?;
        append_output(alloc, template, &sources, &row, &mut output).ok()?;
    }
    Some(output)
}

#[test]
fn a_nested_value_is_its_text_if_wanted(rt: HostRuntime) {
    let line = b"{\"l\": [1, {\"k\": \"v\"}]}";
    let names: [&[u8]; 2] = [b"k", b"l"];
    let mut scratch = Scratch::new(rt.alloc());
    let row = json_row(rt.alloc(), 4, line, &names, true, &mut scratch).expect(&rt, "a row");
    assert_eq!(rt; row.cell(0), None);
    assert_eq!(rt; row.cell(1), Some(b"[1,{\"k\":\"v\"}]".as_slice()));
    let mut scratch = Scratch::new(rt.alloc());
    let refused = json_row(rt.alloc(), 4, line, &names, false, &mut scratch);
    assert!(rt; matches!(refused, Err(RowsError::Nested { line: 4, number: 1 })));
}

#[test]
fn a_wrong_json_line_is_refused(rt: HostRuntime) {
    assert_eq!(rt;
        refusal(rt.alloc(), b"{\"a\": }"),
        Some(RowsError::NotJson { line: 7 })
    );
    assert_eq!(rt;
        refusal(rt.alloc(), b"[1]"),
        Some(RowsError::NotAnObject { line: 7 })
    );
    assert_eq!(rt;
        refusal(rt.alloc(), b"{\"a\":1,\"a\":2}"),
        Some(RowsError::KeyTwice { line: 7 })
    );
    assert_eq!(rt;
        refusal(rt.alloc(), b"{\"\xff\":1}"),
        Some(RowsError::NotUtf8 { line: 7 })
    );
    assert_eq!(rt; refusal(rt.alloc(), b"{}"), None);
}

/// Returns the error of line 7 if these are its bytes.
fn refusal(alloc: Global, bytes: &[u8]) -> Option<RowsError> {
    let mut scratch = Scratch::new(alloc);
    match json_row(alloc, 7, bytes, &[], false, &mut scratch) {
        Ok(_) => None,
        Err(e) => Some(e),
    }
}

#[test]
fn rows_of_a_table_are_filled_in(rt: HostRuntime) -> Result<(), Fail> {
    let template = IndexedTemplate::from_slice(rt.alloc(), b"${town:-}$x;")?;
    let text = b"\xef\xbb\xbfname,town,x\n\nAda,Paris,1\nBob\nCyd,,2\n";
    let filled = filled_rows(rt.alloc(), &template, text, RowsFormat::Csv);
    let filled = filled.expect(&rt, "an output");
    assert_eq!(rt; filled.as_slice(), b"3 Paris1;4 !;5 2;".as_slice());
    let text = b"x\ttown\nA\t1\n\"B\t2\"\t\n";
    let filled = filled_rows(rt.alloc(), &template, text, RowsFormat::Tsv);
    let filled = filled.expect(&rt, "an output");
    assert_eq!(rt; filled.as_slice(), b"2 1A;3 B\t2;".as_slice());
    Ok(())
}

#[test]
fn rows_of_json_lines_are_filled_in(rt: HostRuntime) -> Result<(), Fail> {
    let template = IndexedTemplate::from_slice(rt.alloc(), b"${town:-}$x;")?;
    let text = b"\xef\xbb\xbf{\"x\": 1}\n \r\n[1]\n{\"x\": [2]}\n{\n{\"town\": \"Oslo\", \"x\": 3}";
    let filled = filled_rows(rt.alloc(), &template, text, RowsFormat::JsonLines);
    let filled = filled.expect(&rt, "an output");
    assert_eq!(rt; filled.as_slice(), b"1 -1;3 !;4 !;5 !;6 Oslo3;".as_slice());
    Ok(())
}

/// Returns the outputs of a template for the rows of a text, each after its line, with `!` for a refused row.
/// They are the same if the text is read again.
fn filled_rows(
    alloc: Global,
    template: &IndexedTemplate<'_>,
    text: &[u8],
    format: RowsFormat,
) -> Option<Vec<u8>> {
    let names = names_of(alloc, template).ok()?;
    let first = read_through(alloc, template, text, format, &names)?;
    let second = read_through(alloc, template, text, format, &names)?;
    if first.as_slice() == second.as_slice() {
        Some(first)
    } else {
        None
    }
}

/// Returns the outputs for the rows of a text, or `None` if the text isn't opened.
fn read_through(
    alloc: Global,
    template: &IndexedTemplate<'_>,
    text: &[u8],
    format: RowsFormat,
    names: &[&[u8]],
) -> Option<Vec<u8>> {
    let mut rows = Rows::open(alloc, text, format, names, false).ok()?;
    let columns = rows.columns(alloc).ok()?;
    let sources = Sources {
        fixed: &[],
        columns: &columns,
        fallback: &[],
        no_empty: false,
    };
    let mut buffer = RowBuffer::new(alloc);
    let mut output = Vec::new(alloc);
    for _ in 0..text.len() {
        match rows.next_row(alloc, &mut buffer) {
            Ok(None) => break,
            Ok(Some(row)) => {
                append(&mut output, rows.line(), b"")?;
                append_output(alloc, template, &sources, &row, &mut output).ok()?;
            }
            Err(_) => append(&mut output, rows.line(), b"!;")?,
        }
    }
    Some(output)
}

/// Appends the digit of a line, a space and a text.
fn append(output: &mut Vec<u8>, line: usize, text: &[u8]) -> Option<()> {
    let digit = b"0123456789".get(line)?;
    output.extend_from_slice(&[*digit, b' ']).ok()?;
    output.extend_from_slice(text).ok()
}

#[test]
fn a_head_has_the_names_of_the_columns(rt: HostRuntime) -> Result<(), Fail> {
    let names: [&[u8]; 2] = [b"b", b"c"];
    let rows = Rows::open(rt.alloc(), b"a,b\n", RowsFormat::Csv, &names, false);
    let rows = rows.expect(&rt, "rows");
    let head = rows.head(rt.alloc())?;
    assert_eq!(rt; head.as_slice(), [b"a".as_slice(), b"b"].as_slice());
    let rows = Rows::open(rt.alloc(), b"", RowsFormat::JsonLines, &names, false);
    let rows = rows.expect(&rt, "rows");
    let columns = rows.columns(rt.alloc())?;
    assert_eq!(rt; columns.as_slice(), [Some(0), Some(1)].as_slice());
    Ok(())
}

#[test]
fn a_text_that_is_no_table_is_not_opened(rt: HostRuntime) {
    assert_eq!(rt; refused_text(rt.alloc(), b"\n"), Some(RowsError::NoHead));
    assert_eq!(rt;
        refused_text(rt.alloc(), b"a\n\xff"),
        Some(RowsError::NotUtf8 { line: 2 })
    );
    assert_eq!(rt;
        refused_text(rt.alloc(), b"a\n\"b"),
        Some(RowsError::OpenQuote { line: 2 })
    );
    assert_eq!(rt; refused_text(rt.alloc(), b"a"), None);
}

/// Returns the error of opening a table with commas.
fn refused_text(alloc: Global, text: &[u8]) -> Option<RowsError> {
    Rows::open(alloc, text, RowsFormat::Csv, &[], false).err()
}

/// A device that keeps what is written to it. It fails at a call of `write` after `calls_left` others.
#[derive(Drop)]
struct Tape {
    bytes: Vec<u8>,
    calls: usize,
    calls_left: usize,
    has_failed: bool,
    is_flushed: bool,
}

impl Tape {
    /// Creates an empty device.
    fn new(alloc: Global, calls_left: usize) -> Self {
        Tape {
            bytes: Vec::new(alloc),
            calls: 0,
            calls_left,
            has_failed: false,
            is_flushed: false,
        }
    }
}

impl ByteOutput for Tape {
    ghost use Rattle.std.specs.Prelude.{Some};

    ghost written = { λ tape. Some tape.bytes.items };

    ghost has_failed = { λ tape. tape.has_failed };

    ghost is_flushed = { λ tape. tape.is_flushed };

    fn write(&mut self, bytes: &[u8]) -> Result<usize, Failed> {
        self.is_flushed = false;
        if self.calls >= self.calls_left || self.bytes.extend_from_slice(bytes).is_err() {
            self.has_failed = true;
            return Err(Failed);
        }
        self.calls += 1;
        Ok(bytes.len())
    }

    fn flush(&mut self) -> Result<(), Failed> {
        self.is_flushed = true;
        Ok(())
    }

    fn failed(&self) -> bool {
        self.has_failed
    }
}

/// Returns a letter whose values all come from rows.
fn letter_of<'l>(
    template: &'l IndexedTemplate<'l>,
    names: &'l [&'l [u8]],
    text: &'l [u8],
    format: RowsFormat,
) -> Letter<'l> {
    Letter {
        template,
        names,
        fixed: &[],
        fallback: &[],
        no_empty: false,
        text,
        format,
        nested: false,
    }
}

/// The layout of outputs with semicolons between them.
fn with_semicolons(leaves_out: bool) -> Layout<'static> {
    Layout {
        separator: b";",
        leaves_out,
    }
}

#[test]
fn a_letter_of_a_table_is_written(rt: HostRuntime) -> Result<(), Fail> {
    let template = IndexedTemplate::from_slice(rt.alloc(), b"$name of $town")?;
    let names = names_of(rt.alloc(), &template)?;
    let text = b"name,town\nAda,Paris\nBob\nCyd,Oslo\n";
    let letter = letter_of(&template, &names, text, RowsFormat::Csv);
    let mut tape = Tape::new(rt.alloc(), 9);
    let written = letter.write(rt.alloc(), with_semicolons(true), &mut tape);
    assert!(rt; written.is_ok());
    assert_eq!(rt;
        tape.bytes.as_slice(),
        b"Ada of Paris;Cyd of Oslo".as_slice()
    );
    assert!(rt; tape.is_flushed);
    let written = letter.write(rt.alloc(), with_semicolons(false), &mut tape);
    assert!(rt; matches!(written, Err(WriteError::Refused)));
    let refused = letter.refused_rows(rt.alloc()).expect(&rt, "rows");
    assert_eq!(rt; refused.count, 1);
    let first = refused.first.first();
    let length = RowsError::Length {
        line: 3,
        cells: 1,
        names: 2,
    };
    assert!(rt; matches!(first, Some(Refusal::Row(e)) if *e == length));
    Ok(())
}

#[test]
fn a_letter_of_json_lines_is_collected(rt: HostRuntime) -> Result<(), Fail> {
    let template = IndexedTemplate::from_slice(rt.alloc(), b"$name of $town")?;
    let names = names_of(rt.alloc(), &template)?;
    let text = b"{\"name\":1,\"town\":\"Paris\"}\n{\"name\":2}\n{\"name\":3,\"town\":\"Oslo\"}";
    let fixed: [Option<&[u8]>; 1] = [Some(b"X")];
    let fallback: [Option<&[u8]>; 2] = [Some(b"Y"), Some(b"Rome")];
    let mut letter = letter_of(&template, &names, text, RowsFormat::JsonLines);
    let all = letter.collect(rt.alloc(), with_semicolons(true));
    let all = all.ok().expect(&rt, "outputs");
    assert_eq!(rt; all.as_slice(), b"1 of Paris;3 of Oslo".as_slice());
    let all = letter.collect(rt.alloc(), with_semicolons(false));
    assert!(rt; matches!(all, Err(WriteError::Refused)));
    let refused = letter.refused_rows(rt.alloc()).expect(&rt, "rows");
    assert_eq!(rt; refused.count, 1);
    let first = refused.first.first();
    assert!(rt; matches!(first, Some(Refusal::Missing(2, missing)) if missing.name == "town"));
    letter.fixed = &fixed;
    letter.fallback = &fallback;
    let all = letter.collect(rt.alloc(), with_semicolons(false));
    let all = all.ok().expect(&rt, "outputs");
    assert_eq!(rt;
        all.as_slice(),
        b"X of Paris;X of Rome;X of Oslo".as_slice()
    );
    assert_eq!(rt;
        letter.refused_rows(rt.alloc()).expect(&rt, "rows").count,
        0
    );
    Ok(())
}

#[test]
fn the_first_refusals_are_kept(rt: HostRuntime) -> Result<(), Fail> {
    let template = IndexedTemplate::from_slice(rt.alloc(), b"$a")?;
    let names = names_of(rt.alloc(), &template)?;
    let mut text = Vec::new(rt.alloc());
    for _ in 0..30 {
        text.extend_from_slice(b"[]\n")?;
    }
    let letter = letter_of(&template, &names, &text, RowsFormat::JsonLines);
    let refused = letter.refused_rows(rt.alloc()).expect(&rt, "rows");
    assert_eq!(rt; refused.count, 30);
    assert_eq!(rt; refused.first.len(), KEPT_REFUSALS);
    let all = letter.collect(rt.alloc(), with_semicolons(true));
    assert_eq!(rt; all.ok().expect(&rt, "outputs").len(), 0);
    Ok(())
}

#[test]
fn many_outputs_are_written_in_chunks(rt: HostRuntime) -> Result<(), Fail> {
    let template = IndexedTemplate::from_slice(rt.alloc(), b"$x")?;
    let names = names_of(rt.alloc(), &template)?;
    let mut outputs = b"0".to_vec(rt.alloc())?;
    for _ in 0..3000 {
        outputs.extend_from_slice(b"\n0123456789012345678901234567890123456789012345678")?;
    }
    let mut text = b"x\n".to_vec(rt.alloc())?;
    text.extend_from_slice(&outputs)?;
    let letter = letter_of(&template, &names, &text, RowsFormat::Csv);
    let layout = Layout {
        separator: b"\n",
        leaves_out: false,
    };
    let mut tape = Tape::new(rt.alloc(), 9);
    assert!(rt; letter.write(rt.alloc(), layout, &mut tape).is_ok());
    assert!(rt; tape.bytes.as_slice() == outputs.as_slice());
    assert_eq!(rt; tape.calls, 3);
    let all = letter.collect(rt.alloc(), layout);
    let all = all.ok().expect(&rt, "outputs");
    assert!(rt; all.as_slice() == outputs.as_slice());
    let mut tape = Tape::new(rt.alloc(), 1);
    let written = letter.write(rt.alloc(), layout, &mut tape);
    assert!(rt; matches!(written, Err(WriteError::Failed)));
    assert!(rt; outputs.starts_with(&tape.bytes));
    assert!(rt; tape.failed());
    Ok(())
}
