/// Where the lines that follow a conditional's line lead, when its group isn't taken. A number is a line's place, from 0,
/// among the lines that are kept of its file.
#[derive(Clone, Copy, Debug, PartialEq, Eq)]
pub enum Skip {
    /// The next `#elif`, `#else` or `#endif` of the same conditional.
    Partner(u32),
    /// An `#elif` or `#else` after the `#else` of a conditional inside.
    Broken(u32),
    /// The file ends first; this line opened the innermost conditional that is still open.
    Open(u32),
}
