// Sources and sinks: lines, and faults in mid-stream.
use std::alloc::Global;
use std::test::*;
use tf_io::{MemSink, MemSource, ReadError, WriteFault, read_lines, write_out};

#[test]
fn cuts_at_newlines(rt: HostRuntime) -> Result<(), Fail> {
    let cases: [(&str, &[&str]); 6] = [
        ("", &[]),
        ("a", &["a"]),
        ("a\n", &["a"]),
        ("\n", &[""]),
        ("\n\nab\n \r\nc", &["", "", "ab", " \r", "c"]),
        ("a\n\n", &["a", ""]),
    ];
    for (text, expected) in cases {
        let mut source = MemSource::new(rt.alloc(), text.as_bytes(), &[])?;
        let lines = read_lines(rt.alloc(), &mut source, 10)?;
        assert_eq!(rt; lines.len(), expected.len(), "lines of {text:?}");
        for place in 0..expected.len() {
            assert_eq!(rt;
                lines.get(place),
                expected[place].as_bytes(),
                "line {place} of {text:?}"
            );
        }
    }
    Ok(())
}

// How many lines the text has, where the calls of these numbers fail.
fn count_lines(alloc: Global, text: &str, failing: &[u64], max: u64) -> Result<usize, ReadError> {
    match MemSource::new(alloc, text.as_bytes(), failing) {
        Ok(mut source) => Ok(read_lines(alloc, &mut source, max)?.len()),
        Err(_) => Err(ReadError::Memory),
    }
}

#[test]
fn tells_why_a_reading_ended(rt: HostRuntime) {
    let cases: [(&[u64], u64, Result<usize, ReadError>); 5] = [
        (&[], 4, Ok(2)),
        (&[3], 4, Ok(2)),
        (&[1], 4, Err(ReadError::ReadFault { taken: 0 })),
        (&[2], 4, Err(ReadError::ReadFault { taken: 4 })),
        (&[2], 3, Err(ReadError::TooLong { taken: 4 })),
    ];
    for (failing, max, expected) in cases {
        assert_eq!(rt;
            count_lines(rt.alloc(), "ab\nc", failing, max),
            expected,
            "at most {max}, {failing:?}"
        );
    }
}

#[test]
fn keeps_what_was_written_before_a_fault(rt: HostRuntime) -> Result<(), Fail> {
    let cases: [(&[u64], &[u64], Result<(), WriteFault>, &str); 4] = [
        (&[], &[], Ok(()), "first, second"),
        (&[2], &[], Err(WriteFault { taken: 0 }), "first, "),
        (&[], &[2], Err(WriteFault { taken: 0 }), "first, "),
        (&[3], &[3], Ok(()), "first, second"),
    ];
    for (failing, empty, expected, written) in cases {
        let mut sink = MemSink::new(rt.alloc(), failing, empty)?;
        assert_eq!(rt; write_out(&mut sink, b"first, "), Ok(()));
        assert_eq!(rt; write_out(&mut sink, b"second"), expected);
        assert_eq!(rt; sink.bytes(), written.as_bytes());
        assert_eq!(rt; sink.wanted(), 0);
    }
    Ok(())
}
