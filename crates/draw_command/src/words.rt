//! Which picture is wanted.

/// How a plan is shown.
#[derive(Clone, Copy)]
pub enum PictureForm<'a> {
    /// As a text in the DOT language, state by state.
    Graph,
    /// The same with the run of the explanation in the file of this name.
    GraphWith(&'a str),
    /// As a text in the DOT language, rule by rule.
    Rules,
    /// As a page to step through it.
    Page,
    /// As a page that plays the explanation in the file of this name when it opens.
    PageWith(&'a str),
}

/// What is asked: a picture of the plan, for the domain and the problem, in the files of these
/// names, in this form.
#[derive(Clone, Copy)]
pub struct PictureWords<'a> {
    pub domain: &'a str,
    pub problem: &'a str,
    pub plan: &'a str,
    pub form: PictureForm<'a>,
}
