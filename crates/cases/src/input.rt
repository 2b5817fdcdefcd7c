//! The lines of a session's case, which are the bytes that it sends.
//!
//! | a line that begins with | |
//! |---|---|
//! | `> ` | begins a request. The rest is the request line, and ` HTTP/1.1` is added where it has no ` HTTP/` |
//! | `> -` | begins a request too, whose request line is the rest as it is |
//! | `>> ` | is sent as it is, without a line end |
//! | `# ` | is a comment |
//!
//! Behind a request line stand the lines of its header up to an empty line, and behind that its body, without the line
//! ends at its end. Each line of the head is sent with CR LF, and CR LF follows the last. The line `key` stands for
//! `Authorization: Bearer sk_test_payhost`. The line `Content-Length: ?` gets the body's length, and so does one that is
//! added at the end of the head where there is a body and no line `Content-Length`.

use crate::case::CaseError;
use crate::escape::add_unescaped;
use std::alloc::Global;

// Where in a request a line stands.
#[derive(Clone, Copy, PartialEq, Eq)]
enum Part {
    // In none.
    Between,
    Head,
    Body,
}

// How the length of a request's body is sent.
#[derive(Clone, Copy, PartialEq, Eq)]
enum Length {
    // In a line at the end of the head, where there is a body.
    Unsaid,
    // In a line of the head that is sent as it is.
    Said,
    // In a line between the two parts of the head.
    Counted,
}

// What was read of a case's lines.
#[derive(Drop)]
struct Reader {
    input: Vec<u8>,
    part: Part,
    length: Length,
    // The request's head, up to the line of its length.
    head: Vec<u8>,
    // What stands in the head behind the line of its length.
    tail: Vec<u8>,
    body: Vec<u8>,
    // How many lines of the body ended since the last one that isn't empty.
    ends: usize,
}

/// The bytes that the lines behind a case's first line send.
pub fn read_input(alloc: Global, lines: &str) -> Result<Vec<u8>, CaseError> {
    let mut reader = Reader::new(alloc);
    for (i, line) in lines.split('\n').enumerate() {
        reader.read(alloc, line, i.saturating_add(1))?;
    }
    reader.end(alloc)?;
    Ok(reader.input)
}

impl Reader {
    fn new(alloc: Global) -> Self {
        Reader {
            input: Vec::new(alloc),
            part: Part::Between,
            length: Length::Unsaid,
            head: Vec::new(alloc),
            tail: Vec::new(alloc),
            body: Vec::new(alloc),
            ends: 0,
        }
    }

    // Reads a line of this number.
    fn read(&mut self, alloc: Global, line: &str, number: usize) -> Result<(), CaseError> {
        if let Some(request_line) = line.strip_prefix("> ") {
            self.end(alloc)?;
            self.begin(request_line, number)
        } else if let Some(bytes) = line.strip_prefix(">> ") {
            self.end(alloc)?;
            add_unescaped(&mut self.input, bytes, number)
        } else if line.starts_with("# ") {
            self.end(alloc)
        } else {
            self.add(line, number)
        }
    }

    // Begins a request.
    fn begin(&mut self, request_line: &str, number: usize) -> Result<(), CaseError> {
        self.part = Part::Head;
        self.length = Length::Unsaid;
        self.ends = 0;
        if let Some(line) = request_line.strip_prefix('-') {
            return add_line(&mut self.head, line, "", number);
        }
        let version = if request_line.contains(" HTTP/") {
            ""
        } else {
            " HTTP/1.1"
        };
        add_line(&mut self.head, request_line, version, number)
    }

    // Adds a line to what is open.
    fn add(&mut self, line: &str, number: usize) -> Result<(), CaseError> {
        match self.part {
            Part::Between if line.is_empty() => Ok(()),
            Part::Between => Err(CaseError::Line(number)),
            Part::Head if line.is_empty() => {
                self.part = Part::Body;
                Ok(())
            }
            Part::Head => self.add_header(line, number),
            Part::Body => self.add_body(line, number),
        }
    }

    fn add_header(&mut self, line: &str, number: usize) -> Result<(), CaseError> {
        if line == "Content-Length: ?" {
            self.length = Length::Counted;
            return Ok(());
        }
        if self.length == Length::Unsaid && says_length(line) {
            self.length = Length::Said;
        }
        let text = if line == "key" {
            "Authorization: Bearer sk_test_payhost"
        } else {
            line
        };
        match self.length {
            Length::Counted => add_line(&mut self.tail, text, "", number),
            Length::Unsaid | Length::Said => add_line(&mut self.head, text, "", number),
        }
    }

    fn add_body(&mut self, line: &str, number: usize) -> Result<(), CaseError> {
        if !line.is_empty() {
            for _ in 0..self.ends {
                self.body.push(b'\n')?;
            }
            self.ends = 0;
            add_unescaped(&mut self.body, line, number)?;
        }
        self.ends = self.ends.saturating_add(1);
        Ok(())
    }

    // Ends the request that is open, if one is.
    fn end(&mut self, alloc: Global) -> Result<(), CaseError> {
        if self.part == Part::Between {
            return Ok(());
        }
        self.part = Part::Between;
        self.input.append(&mut self.head)?;
        if self.length == Length::Counted
            || self.length == Length::Unsaid && !self.body.is_empty()
        {
            let line = format!(in alloc; "Content-Length: {}\r\n", self.body.len())?;
            self.input.extend_from_slice(line.as_bytes())?;
        }
        self.input.append(&mut self.tail)?;
        self.input.extend_from_slice(b"\r\n")?;
        self.input.append(&mut self.body)?;
        Ok(())
    }
}

// Adds a line of a head, and its end.
fn add_line(head: &mut Vec<u8>, line: &str, version: &str, number: usize) -> Result<(), CaseError> {
    add_unescaped(head, line, number)?;
    head.extend_from_slice(version.as_bytes())?;
    Ok(head.extend_from_slice(b"\r\n")?)
}

// Whether a line of a header says the length of the body.
fn says_length(line: &str) -> bool {
    match line.split_once(':') {
        Some((name, _)) => name.eq_ignore_ascii_case("Content-Length"),
        None => false,
    }
}
