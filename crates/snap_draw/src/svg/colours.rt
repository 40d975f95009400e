//! The colours of a picture and of a page. A picture is written with their names, and then gets the colours of a scheme.
use snap_options::Scheme;
use std::alloc::AllocError;

// A name, and what it stands for in a light picture and in a dark one.
type Named = (&'static [u8], &'static [u8], &'static [u8]);

const COLOURS: &[Named] = &[
    (b"--ground", b"#ffffff", b"#15181c"),
    (b"--ink", b"#1c2127", b"#e8ebee"),
    (b"--faint", b"#c3c9d0", b"#444c55"),
    (b"--quiet", b"#59636e", b"#a3adb8"),
    (b"--update", b"#2c69a8", b"#5b9bd9"),
    (b"--view", b"#ffffff", b"#15181c"),
    (b"--edge", b"#1d6b52", b"#5cc3a0"),
    (b"--fault", b"#b3261e", b"#ff8a7f"),
    (b"--wash", b"#fbe3e0", b"#4a2320"),
    (b"--line", b"#7a4d9f", b"#c79bea"),
];

// The pattern of a fault. It has two names, so that a light picture and a dark one can stand in one document.
const PATTERNS: &[Named] = &[
    (b"--hatch-name", b"snapjudge-light", b"snapjudge-dark"),
    (
        b"--hatch",
        b"url(#snapjudge-light)",
        b"url(#snapjudge-dark)",
    ),
];

// What is darker on paper than in a light picture, or has less ink.
const ON_PAPER: &[u8] = b"--ink: #000000; --faint: #bbbbbb; --quiet: #444444; ";

fn meaning_of(named: &Named, scheme: Scheme) -> &'static [u8] {
    let (_name, light, dark) = *named;
    match scheme {
        Scheme::Light => light,
        Scheme::Dark => dark,
    }
}

// What the value of an attribute stands for, if it is a name.
fn meaning_in(table: &[Named], value: &[u8], scheme: Scheme) -> Option<&'static [u8]> {
    for named in table {
        if named.0 == value {
            return Some(meaning_of(named, scheme));
        }
    }
    None
}

// What the value of an attribute stands for in a scheme: that of its name, or the value itself.
fn value_in<'a>(value: &'a [u8], scheme: Scheme) -> &'a [u8] {
    if !value.starts_with(b"--") {
        return value;
    }
    meaning_in(COLOURS, value, scheme)
        .or(meaning_in(PATTERNS, value, scheme))
        .unwrap_or(value)
}

/// Adds a picture, with the colours of a scheme in the place of their names. Quotes stand round the values of attributes only.
pub(crate) fn put_coloured(
    out: &mut Vec<u8>,
    picture: &[u8],
    scheme: Scheme,
) -> Result<(), AllocError> {
    let mut quote: &[u8] = b"";
    for value in picture.split(|byte| *byte == b'"') {
        out.extend_from_slice(quote)?;
        out.extend_from_slice(value_in(value, scheme))?;
        quote = b"\"";
    }
    Ok(())
}

// Adds the colours of a scheme, as a style has them.
fn put_style(out: &mut Vec<u8>, scheme: Scheme) -> Result<(), AllocError> {
    for named in COLOURS {
        out.extend_from_slice(named.0)?;
        out.extend_from_slice(b": ")?;
        out.extend_from_slice(meaning_of(named, scheme))?;
        out.extend_from_slice(b"; ")?;
    }
    Ok(())
}

// Adds the colours of a whole page, which are those of a scheme.
fn put_root(out: &mut Vec<u8>, schemes: &[u8], scheme: Scheme) -> Result<(), AllocError> {
    out.extend_from_slice(b":root { color-scheme: ")?;
    out.extend_from_slice(schemes)?;
    out.extend_from_slice(b"; ")?;
    put_style(out, scheme)?;
    out.extend_from_slice(b"}\n")
}

// Adds the colours of a page on a screen: those of a scheme, or if none is given those of the reader's system.
fn put_screen(out: &mut Vec<u8>, scheme: Option<Scheme>) -> Result<(), AllocError> {
    match scheme {
        Some(Scheme::Light) => put_root(out, b"light", Scheme::Light),
        Some(Scheme::Dark) => put_root(out, b"dark", Scheme::Dark),
        None => {
            put_root(out, b"light dark", Scheme::Light)?;
            out.extend_from_slice(b"@media (prefers-color-scheme: dark) { :root { ")?;
            put_style(out, Scheme::Dark)?;
            out.extend_from_slice(b"} }\n")
        }
    }
}

/// Adds the colours of a page, on a screen and on paper.
pub(crate) fn put_colours(out: &mut Vec<u8>, scheme: Option<Scheme>) -> Result<(), AllocError> {
    put_screen(out, scheme)?;
    out.extend_from_slice(b"@media print { :root { color-scheme: light; ")?;
    put_style(out, Scheme::Light)?;
    out.extend_from_slice(ON_PAPER)?;
    out.extend_from_slice(b"} }\n")
}
