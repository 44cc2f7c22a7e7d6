//! The names that a desk opens and closes.

/// The calls of a desk in order, as text. Text for which there is no memory is left out.
#[derive(Drop)]
pub(crate) struct Steps {
    text: String,
    /// How many inputs are open.
    open: u64,
    /// The most inputs that were open at once.
    most: u64,
}

impl Steps {
    /// No call yet.
    pub(crate) fn none(text: String) -> Steps {
        Steps {
            text,
            open: 0,
            most: 0,
        }
    }

    /// The calls so far, as text.
    pub(crate) fn text(&self) -> &str {
        self.text.as_str()
    }

    /// How many inputs were open at once, at most.
    pub(crate) fn most(&self) -> u64 {
        self.most
    }

    /// An input or the output was opened.
    pub(crate) fn opens(&mut self, name: &str) {
        self.note(" opens ", name);
    }

    /// A name could not be opened.
    pub(crate) fn misses(&mut self, name: &str) {
        self.note(" misses ", name);
    }

    /// One more input is open.
    pub(crate) fn enters(&mut self) {
        self.open = self.open.saturating_add(1);
        self.most = self.most.max(self.open);
    }

    /// An input was closed.
    pub(crate) fn closes(&mut self, name: &str) {
        self.open = self.open.saturating_sub(1);
        self.note(" closes ", name);
    }

    /// The output was closed.
    pub(crate) fn closes_output(&mut self) {
        self.note(" closes", " the output");
    }

    fn note(&mut self, done: &str, name: &str) {
        if self.text.push_str(done).is_err() {
            return;
        }
        let name = if name.is_empty() { "-" } else { name };
        let _ = self.text.push_str(name);
    }
}
