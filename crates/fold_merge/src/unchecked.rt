// Calls whose callers have tested what they ask for: a sound record, or two gates of one by their distinct feeds.
pub mod merges;
