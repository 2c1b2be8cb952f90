//! What readers and writers share.
mod reading;
mod writing;
