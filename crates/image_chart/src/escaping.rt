use text_writer::TextWriter;

// Writes a byte of a text in XML.
fn write_xml_byte(byte: u8, writer: &mut TextWriter) {
    match byte {
        b'<' => writer.text("&lt;"),
        b'>' => writer.text("&gt;"),
        b'&' => writer.text("&amp;"),
        other => writer.shown(&[other]),
    }
}

/// Writes a text in XML: what begins or ends a tag or an entity as an entity, and what no terminal shows as a question mark.
pub(crate) fn write_xml(text: &[u8], writer: &mut TextWriter) {
    for byte in text {
        write_xml_byte(*byte, writer);
    }
}

/// Writes a text within a string of JSON, and what no terminal shows as a question mark.
pub(crate) fn write_json(text: &[u8], writer: &mut TextWriter) {
    for byte in text {
        if *byte == b'"' || *byte == b'\\' {
            writer.text("\\");
        }
        writer.shown(&[*byte]);
    }
}
