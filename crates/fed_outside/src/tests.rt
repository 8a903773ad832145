use super::*;
use std::alloc::{AllocError, Global};
use std::test::Fail;
use std::{fs, process};

fn file(alloc: Global, name: &str, content: &[u8]) -> Result<MemFile, AllocError> {
    Ok(MemFile::new(String::from_str(alloc, name)?, content.to_vec(alloc)?))
}

// What a load gave, as text.
fn said(loaded: &Loaded) -> &[u8] {
    match loaded {
        Loaded::Bytes(bytes) => bytes,
        Loaded::Absent => b"absent",
        Loaded::TooLong => b"too long",
        Loaded::Failed => b"failed",
        Loaded::Memory => b"memory",
    }
}

#[test]
fn loads_from_memory(rt: HostRuntime) -> Result<(), Fail> {
    let alloc = rt.alloc();
    let files = vec![in alloc; file(alloc, "s", b"one")?]?;
    let failing = vec![in alloc; FailingCall { call: 4, octets: 0 }]?;
    let mut shelf = MemShelf::new(files, failing);
    for (name, most, want) in [
        ("s", 3, "one"),
        ("s", 2, "too long"),
        ("t", 3, "absent"),
        ("s", 3, "failed"),
    ] {
        let loaded = shelf.load(alloc, name, most);
        assert_eq!(rt; said(&loaded), want.as_bytes());
    }
    assert_eq!(rt; shelf.faults(), 1);
    Ok(())
}

#[test]
fn puts_into_memory(rt: HostRuntime) -> Result<(), Fail> {
    let alloc = rt.alloc();
    let failing = vec![in alloc; FailingCall { call: 2, octets: 1 }]?;
    let mut sink = MemSink::new(alloc, 6, failing)?;
    assert!(rt; sink.put(b"abc"));
    assert!(rt; !sink.put(b"de"));
    assert!(rt; !sink.put(b"fgh"));
    assert_eq!(rt; sink.octets(), b"abcdfg".as_slice());
    assert_eq!(rt; sink.faults(), 2);
    Ok(())
}

#[test]
fn serves_peers_in_memory(rt: HostRuntime) -> Result<(), Fail> {
    let alloc = rt.alloc();
    let failing = vec![in alloc; FailingCall { call: 3, octets: 1 }]?;
    let peer = MemPeer::new(alloc, b"hello".to_vec(alloc)?, 4, failing)?;
    let mut door = MemDoor::new(alloc, vec![in alloc; peer]?, Vec::new(alloc))?;
    assert!(rt; door.open(5672));
    let mut peer = door.accept().ok_or("no peer")?;
    let mut front = [0; 3];
    assert_eq!(rt; peer.read(&mut front), Some(3));
    assert_eq!(rt; front.as_slice(), b"hel".as_slice());
    assert!(rt; peer.write(b"ab"));
    assert_eq!(rt; peer.read(&mut front), None);
    assert_eq!(rt; peer.octets_left(), b"lo".as_slice());
    door.back(peer);
    assert!(rt; door.accept().is_none());
    assert_eq!(rt; (door.faults(), door.peer_faults()), (1, 1));
    let back = door.given_back().first().ok_or("none given back")?;
    assert_eq!(rt; back.octets_read(), b"hel".as_slice());
    assert_eq!(rt; back.octets_written(), b"ab".as_slice());
    assert_eq!(rt; back.faults(), 1);
    Ok(())
}

#[test]
fn loads_files(rt: HostRuntime) -> Result<(), Fail> {
    let alloc = rt.alloc();
    let path = format!(in alloc; "/tmp/fed_outside_{}", process::id(rt.process()))?;
    fs::write(&rt, &path, "one")?;
    let mut shelf = FileShelf::new(&rt);
    let whole = shelf.load(alloc, &path, 3);
    let cut = shelf.load(alloc, &path, 2);
    fs::remove_file(&rt, &path)?;
    assert_eq!(rt; said(&whole), b"one".as_slice());
    assert_eq!(rt; said(&cut), b"too long".as_slice());
    // A directory can't be read.
    for (name, want) in [
        (path.as_str(), "absent"),
        ("/dev/null", ""),
        ("/tmp", "failed"),
    ] {
        let loaded = shelf.load(alloc, name, 3);
        assert_eq!(rt; said(&loaded), want.as_bytes());
    }
    assert_eq!(rt; shelf.faults(), 1);
    Ok(())
}

#[test]
fn puts_to_writers(rt: HostRuntime) -> Result<(), Fail> {
    let mut kept = [0; 3];
    let mut sink = StdSink::new(kept.as_mut_slice());
    assert!(rt; sink.put(b"ab"));
    // The writer takes one octet, and then none.
    assert!(rt; !sink.put(b"cd"));
    assert_eq!(rt; sink.faults(), 1);
    drop(sink);
    assert_eq!(rt; kept.as_slice(), b"abc".as_slice());
    assert!(rt; StdSink::new(rt.stdout()).put(b""));
    Ok(())
}
