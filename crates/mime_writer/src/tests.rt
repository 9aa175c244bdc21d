// Texts whose bytes RFC 4648, section 10, and Python's `quopri` and `email.header` give.
use crate::base64::push_base64;
use crate::quoted::push_quoted_printable;
use crate::values::push_text_value;
use std::test::Fail;

#[test]
fn bytes_have_their_base64(rt: HostRuntime) -> Result<(), Fail> {
    for (bytes, text) in [
        ("", ""),
        ("f", "Zg=="),
        ("fo", "Zm8="),
        ("foobar", "Zm9vYmFy"),
    ] {
        let mut out = Vec::new(rt.alloc());
        push_base64(&mut out, bytes.as_bytes())?;
        assert!(rt; out.as_slice() == text.as_bytes(), "{bytes}");
    }
    Ok(())
}

#[test]
fn bytes_have_their_quoted_printable(rt: HostRuntime) -> Result<(), Fail> {
    for (bytes, text) in [
        ("a=b", "a=3Db"),
        ("a \nb", "a=20\r\nb"),
        ("\u{e9}", "=C3=A9"),
    ] {
        let mut out = Vec::new(rt.alloc());
        push_quoted_printable(&mut out, bytes.as_bytes())?;
        assert!(rt; out.as_slice() == text.as_bytes(), "{bytes}");
    }
    Ok(())
}

#[test]
fn a_text_is_plain_or_in_words(rt: HostRuntime) -> Result<(), Fail> {
    for (text, value) in [("hi", " hi"), ("\u{e9}", "\r\n =?utf-8?B?w6k=?=")] {
        let mut out = Vec::new(rt.alloc());
        push_text_value(rt.alloc(), &mut out, text)?;
        assert!(rt; out.as_slice() == value.as_bytes(), "{text}");
    }
    Ok(())
}
