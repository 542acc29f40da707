//! What of the processes' memory is shared already.
use report_text::{in_units, scale_for};
use std::alloc::AllocError;

/// How many pages of the processes are shared already.
#[derive(Drop)]
pub struct Already {
    /// Those that aren't one process's alone.
    pub shared: u64,
    /// Of each process, those that show frames of `pageshare-host`.
    pub lent: Vec<u64>,
}

impl Already {
    /// Appends a line for each process whose memory `pageshare-host` shares.
    pub fn push_lent(&self, text: &mut String, processes: &[u32]) -> Result<(), AllocError> {
        for (pid, pages) in processes.iter().zip(&self.lent) {
            push_line(text, *pid, *pages)?;
        }
        Ok(())
    }

    /// Appends the line that says how much is shared in all.
    pub fn push_shared(&self, text: &mut String) -> Result<(), AllocError> {
        push_mebibytes(text, self.shared)?;
        text.push_str(" of this memory is shared already.\n")
    }

    /// Appends these numbers to an object and its line feed.
    pub fn push_members(&self, text: &mut String) -> Result<(), AllocError> {
        if text.ends_with("}\n") {
            text.pop();
            text.pop();
        }
        let shared = self.shared;
        write!(text, ",\"shared_already\":{shared},\"lent_already\":[")?;
        for (n, pages) in self.lent.iter().enumerate() {
            push_number(text, n > 0, *pages)?;
        }
        text.push_str("]}\n")
    }
}

/// Appends the line of a process, if it has lent pages.
fn push_line(text: &mut String, pid: u32, pages: u64) -> Result<(), AllocError> {
    if pages == 0 {
        return Ok(());
    }
    write!(text, "pageshare-host shares ")?;
    push_mebibytes(text, pages)?;
    writeln!(text, " of process {pid} already, which counts below, too.")
}

/// Appends an amount of memory: with one decimal where it is small.
fn push_mebibytes(text: &mut String, pages: u64) -> Result<(), AllocError> {
    let scale = scale_for(pages);
    let amount = in_units(scale, pages);
    if scale == 10 {
        let (whole, tenth) = (amount / 10, amount % 10);
        write!(text, "{whole}.{tenth} MiB")
    } else {
        write!(text, "{amount} MiB")
    }
}

/// Appends a number of a list.
fn push_number(text: &mut String, is_later: bool, number: u64) -> Result<(), AllocError> {
    if is_later {
        text.push_str(",")?;
    }
    write!(text, "{number}")
}
