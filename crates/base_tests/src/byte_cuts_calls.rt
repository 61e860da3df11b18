use byte_cuts::{behind, cut_at};

#[test]
fn bytes_are_cut(rt: HostRuntime) {
    let bytes = b"--k=1=6".as_slice();
    assert!(rt; cut_at(bytes, b'=') == Some((b"--k".as_slice(), b"1=6".as_slice())));
    assert!(rt; cut_at(bytes, b'-') == Some((b"".as_slice(), b"-k=1=6".as_slice())));
    assert!(rt; cut_at(bytes, b'6') == Some((b"--k=1=".as_slice(), b"".as_slice())));
    assert!(rt; cut_at(bytes, b'7').is_none());
    assert!(rt; behind(bytes, b"--".as_slice()) == Some(b"k=1=6".as_slice()));
    assert!(rt; behind(bytes, bytes) == Some(b"".as_slice()));
    assert!(rt; behind(bytes, b"".as_slice()) == Some(bytes));
    assert!(rt; behind(bytes, b"-k".as_slice()).is_none());
    assert!(rt; behind(b"-".as_slice(), b"--".as_slice()).is_none());
}
