use dv_io::{Failed, MemSink, MemSource, Sink, Source};
use std::test::Fail;

const TEXT: &[u8] = b"hello";

// What each call answers, for a source or a sink of this piece that fails at these calls.
// `room` is the room of each read, or that of the sink.
#[derive(Clone, Copy)]
struct Row {
    room: usize,
    piece: usize,
    fails: &'static [u64],
    want: &'static [Result<usize, Failed>],
}

impl Row {
    fn faults(&self) -> u64 {
        self.want.iter().filter(|want| want.is_err()).count() as u64
    }
}

#[test]
fn reads_pieces_up_to_the_end(rt: HostRuntime) -> Result<(), Fail> {
    let rows = [
        Row {
            room: 8,
            piece: 3,
            fails: &[],
            want: &[Ok(3), Ok(2), Ok(0), Ok(0)],
        },
        Row {
            room: 2,
            piece: 8,
            fails: &[],
            want: &[Ok(2), Ok(2), Ok(1), Ok(0)],
        },
        Row {
            room: 8,
            piece: 4,
            fails: &[0, 2, 3],
            want: &[Err(Failed), Ok(4), Err(Failed), Err(Failed), Ok(1), Ok(0)],
        },
        Row {
            room: 8,
            piece: 5,
            fails: &[1],
            want: &[Ok(5), Err(Failed), Ok(0)],
        },
    ];
    for row in rows {
        assert!(rt; row.piece > 0);
        let mut source = MemSource {
            bytes: Vec::from_slice(rt.alloc(), TEXT)?,
            at: 0,
            piece: row.piece,
            fails: Vec::from_slice(rt.alloc(), row.fails)?,
            calls: 0,
            faults: 0,
        };
        let mut given = Vec::new(rt.alloc());
        for want in row.want {
            let mut room = [0; 8];
            assert!(rt; row.room > 0 && row.room <= 8);
            let got = source.read(&mut room[..row.room]);
            assert_eq!(rt; got, *want, "at {:?}", row.want);
            if let Ok(n) = got {
                given.extend_from_slice(&room[..n])?;
            }
        }
        assert_eq!(rt; given.as_slice(), TEXT);
        assert_eq!(rt; source.calls, row.want.len() as u64);
        assert_eq!(rt; source.faults, row.faults());
    }
    Ok(())
}

#[test]
fn writes_pieces_up_to_the_room(rt: HostRuntime) -> Result<(), Fail> {
    let rows = [
        (
            Row {
                room: 8,
                piece: 8,
                fails: &[],
                want: &[Ok(5)],
            },
            "hello",
        ),
        (
            Row {
                room: 5,
                piece: 2,
                fails: &[0, 2],
                want: &[Err(Failed), Ok(2), Err(Failed), Ok(2), Ok(1)],
            },
            "hello",
        ),
        (
            Row {
                room: 3,
                piece: 2,
                fails: &[],
                want: &[Ok(2), Ok(1), Err(Failed), Err(Failed)],
            },
            "hel",
        ),
        (
            Row {
                room: 0,
                piece: 1,
                fails: &[],
                want: &[Err(Failed)],
            },
            "",
        ),
    ];
    for (row, taken) in rows {
        assert!(rt; row.piece > 0);
        let mut sink = MemSink {
            taken: Vec::with_capacity(rt.alloc(), row.room)?,
            room: row.room,
            piece: row.piece,
            fails: Vec::from_slice(rt.alloc(), row.fails)?,
            calls: 0,
            faults: 0,
        };
        let mut at = 0;
        for want in row.want {
            assert!(rt; at < TEXT.len());
            let got = sink.write(&TEXT[at..]);
            assert_eq!(rt; got, *want, "at {:?}", row.want);
            if let Ok(n) = got {
                at += n;
            }
        }
        assert_eq!(rt; sink.taken.as_slice(), taken.as_bytes());
        assert_eq!(rt; sink.calls, row.want.len() as u64);
        assert_eq!(rt; sink.faults, row.faults());
    }
    Ok(())
}

#[test]
fn counts_stay_at_their_last_value(rt: HostRuntime) -> Result<(), Fail> {
    let mut source = MemSource {
        bytes: Vec::from_slice(rt.alloc(), TEXT)?,
        at: 1,
        piece: 8,
        fails: Vec::from_slice(rt.alloc(), &[u64::MAX])?,
        calls: u64::MAX - 1,
        faults: u64::MAX,
    };
    let mut room = [0; 8];
    assert_eq!(rt; source.read(&mut room), Ok(4));
    assert_eq!(rt; room, *b"ello\0\0\0\0");
    assert_eq!(rt; source.read(&mut room), Err(Failed));
    assert_eq!(rt; source.read(&mut room), Err(Failed));
    assert_eq!(rt;
        (source.at, source.calls, source.faults),
        (5, u64::MAX, u64::MAX)
    );

    let mut sink = MemSink {
        taken: Vec::with_capacity(rt.alloc(), 9)?,
        room: 9,
        piece: 8,
        fails: Vec::from_slice(rt.alloc(), &[u64::MAX])?,
        calls: u64::MAX - 1,
        faults: u64::MAX,
    };
    assert_eq!(rt; sink.write(TEXT), Ok(5));
    assert_eq!(rt; sink.write(TEXT), Err(Failed));
    assert_eq!(rt; sink.write(TEXT), Err(Failed));
    assert_eq!(rt; (sink.calls, sink.faults), (u64::MAX, u64::MAX));
    assert_eq!(rt; sink.taken.as_slice(), TEXT);
    Ok(())
}
