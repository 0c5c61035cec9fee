use crate::failure::Failure;
use std::alloc::Global;

/// What a picture has.
#[derive(Clone, Copy)]
pub struct Found {
    /// How many actions are marked.
    pub marks: u32,
    /// Whether a bar says that a process waits for a monitor, and who held that.
    pub waits: bool,
}

// A text of XML while it is read.
#[derive(Drop)]
struct Reader<'t> {
    // The names of the elements that are open, the outermost first.
    open: Vec<&'t str>,
    // Whether the outermost element has begun.
    begun: bool,
    found: Found,
}

// Whether XML may have a sign, outside of tags.
fn is_sign(sign: char) -> bool {
    matches!(sign, '\t' | '\n' | ' '..='\u{FFFD}' | '\u{10000}'..)
}

// Whether XML may have all signs of a text, outside of tags.
fn are_signs(text: &str) -> bool {
    for sign in text.chars() {
        if !is_sign(sign) {
            return false;
        }
    }
    true
}

// Whether a text behind & begins with what names a sign.
fn is_entity(text: &str) -> bool {
    text.starts_with("lt;") || text.starts_with("gt;") || text.starts_with("amp;")
}

// Checks a text between tags, or the value of an attribute: its signs, and that each & begins an entity.
fn check_text(text: &str) -> Result<(), Failure> {
    if !are_signs(text) || text.contains("]]>") {
        return Err(Failure::Xml);
    }
    for piece in text.split('&').skip(1) {
        if !is_entity(piece) {
            return Err(Failure::Xml);
        }
    }
    Ok(())
}

// Checks the attributes of a tag: each is a name, =, and a value between single quotes.
fn check_attributes(attributes: &str) -> Result<(), Failure> {
    if attributes.trim().is_empty() {
        return Ok(());
    }
    let body = attributes.strip_suffix('\'').ok_or(Failure::Xml)?;
    let mut quoted = false;
    for part in body.split('\'') {
        if quoted {
            check_text(part)?;
        } else if part.trim().len() < 2 || !part.ends_with('=') {
            return Err(Failure::Xml);
        }
        quoted = !quoted;
    }
    if quoted { Err(Failure::Xml) } else { Ok(()) }
}

impl<'t> Reader<'t> {
    // Takes the tag that ends an element.
    fn close(&mut self, name: &str) -> Result<(), Failure> {
        match self.open.pop() {
            Some(last) if last == name => Ok(()),
            _ => Err(Failure::Xml),
        }
    }

    // Takes a tag that begins an element. There is one outermost element.
    fn begin(&mut self, tag: &'t str) -> Result<(), Failure> {
        if self.open.is_empty() && self.begun {
            return Err(Failure::Xml);
        }
        self.begun = true;
        let whole = tag.strip_suffix('/').unwrap_or(tag);
        let (name, attributes) = whole.split_once(' ').unwrap_or((whole, ""));
        check_attributes(attributes)?;
        if whole.len() == tag.len() {
            self.open.push(name)?;
        }
        Ok(())
    }

    // Takes the title of a mark, which begins with the number of its action, or of a bar.
    fn take_title(&mut self, title: &str) {
        if matches!(title.as_bytes().first(), Some(b'0'..=b'9')) {
            self.found.marks = self.found.marks.saturating_add(1);
        }
        self.found.waits = self.found.waits || title.contains("held by");
    }

    // Takes the text behind a tag.
    fn take_text(&mut self, text: &str) -> Result<(), Failure> {
        check_text(text)?;
        if self.open.is_empty() && !text.trim().is_empty() {
            return Err(Failure::Xml);
        }
        if self.open.last().copied() == Some("title") {
            self.take_title(text);
        }
        Ok(())
    }

    // Takes a tag, and the text behind it.
    fn take(&mut self, tag: &'t str, text: &str) -> Result<(), Failure> {
        match tag.strip_prefix('/') {
            Some(name) => self.close(name)?,
            None => self.begin(tag)?,
        }
        self.take_text(text)
    }
}

/// Reads a text of XML that has elements and text alone, with no `>` in a tag; what it has, or a failure where it isn't
/// well-formed.
pub fn read_xml(alloc: Global, text: &str) -> Result<Found, Failure> {
    let mut reader = Reader {
        open: Vec::new(alloc),
        begun: false,
        found: Found {
            marks: 0,
            waits: false,
        },
    };
    let body = text.strip_prefix('<').ok_or(Failure::Xml)?;
    for piece in body.split('<') {
        let (tag, behind) = piece.split_once('>').ok_or(Failure::Xml)?;
        reader.take(tag, behind)?;
    }
    if reader.open.is_empty() {
        Ok(reader.found)
    } else {
        Err(Failure::Xml)
    }
}
