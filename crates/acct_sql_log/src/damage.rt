//! Damage of a log.

/// Where a log is damaged.
#[derive(Clone, Copy, PartialEq, Eq, Debug)]
pub enum Damage {
    /// In its header. No frame can be read without it, so its commits are not counted.
    Header,
    /// In a frame, or the log was cut short.
    Frame {
        /// The number of the frame that breaks the chain, from 1, or of the first one that is not
        /// whole.
        frame: u64,
        /// How many commits end at it or behind it, by the marks of the frames. If it is none, the
        /// log shows no lost commit: SQLite leaves such a log if it is killed in a large write or
        /// rolls it back. So does whoever loses the block with a commit's end.
        commits: u64,
    },
}
