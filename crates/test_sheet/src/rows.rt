//! Rows as they are written: blocks of lines with an empty line between two of them.
use indexmap::IndexMap;
use std::alloc::{AllocError, Global};

/// A row: what is called, with which words, its lines, each after its mark, and the end.
#[derive(Drop)]
pub struct Row<'a> {
    pub call: &'a str,
    pub words: &'a str,
    lines: Vec<&'a str>,
    pub end: &'a str,
}

impl<'a> Row<'a> {
    /// The lines behind this mark.
    pub fn marked(&self, alloc: Global, mark: &str) -> Result<Vec<&'a str>, AllocError> {
        let mut marked = Vec::new(alloc);
        for line in &self.lines {
            if let Some(rest) = line.strip_prefix(mark) {
                marked.push(rest)?;
            }
        }
        Ok(marked)
    }
}

/// All rows, and the lists of lines that rows name.
#[derive(Drop)]
pub struct Sheet<'a> {
    pub rows: Vec<Row<'a>>,
    lists: IndexMap<&'a str, Vec<&'a str>>,
}

impl<'a> Sheet<'a> {
    /// The rows and lists of a text. A line that begins with `#` is a comment; the first other line of a block has the call
    /// and its words.
    pub(crate) fn read(alloc: Global, text: &'a str) -> Result<Sheet<'a>, AllocError> {
        let mut sheet = Sheet {
            rows: Vec::new(alloc),
            lists: IndexMap::new(alloc),
        };
        for block in text.split("\n\n") {
            sheet.add(alloc, block)?;
        }
        Ok(sheet)
    }

    /// Adds a block: a list where it begins with `list`, rows of one line each where it begins with `each`, otherwise a row;
    /// comments alone are nothing.
    fn add(&mut self, alloc: Global, block: &'a str) -> Result<(), AllocError> {
        let mut lines = block.lines().filter(|line| !line.starts_with('#'));
        let Some(first) = lines.next() else {
            return Ok(());
        };
        let lines: Vec<&'a str> = lines.collect(alloc)?;
        match first.split_once(' ') {
            Some(("list", name)) => self.add_list(name, lines),
            Some(("each", call)) => self.add_each(alloc, call, &lines),
            Some((call, words)) => self.add_row(call, words, lines),
            None => self.add_row(first, "", lines),
        }
    }

    /// Adds a list.
    fn add_list(&mut self, name: &'a str, lines: Vec<&'a str>) -> Result<(), AllocError> {
        self.lists.insert(name, lines)?;
        Ok(())
    }

    /// Adds a row, at whose end stands what follows `= ` in its last line.
    fn add_row(
        &mut self,
        call: &'a str,
        words: &'a str,
        lines: Vec<&'a str>,
    ) -> Result<(), AllocError> {
        let last = lines.last().copied().unwrap_or("");
        let end = last.strip_prefix("= ").unwrap_or("");
        self.rows.push(Row {
            call,
            words,
            lines,
            end,
        })?;
        Ok(())
    }

    /// Adds a row for each line, of words, ` → ` and the end.
    fn add_each(
        &mut self,
        alloc: Global,
        call: &'a str,
        lines: &[&'a str],
    ) -> Result<(), AllocError> {
        for line in lines {
            let (words, end) = line.split_once(" → ").unwrap_or((line, ""));
            let lines = Vec::new(alloc);
            self.rows.push(Row {
                call,
                words,
                lines,
                end,
            })?;
        }
        Ok(())
    }

    /// The lines of a row behind this mark, with those of a list for `@` and its name.
    pub fn lines(
        &self,
        alloc: Global,
        row: &Row<'a>,
        mark: &str,
    ) -> Result<Vec<&'a str>, AllocError> {
        let mut all = Vec::new(alloc);
        for line in row.marked(alloc, mark)? {
            match line.strip_prefix('@').and_then(|name| self.lists.get(name)) {
                Some(list) => all.extend_from_slice(list)?,
                None => all.push(line)?,
            }
        }
        Ok(all)
    }
}
