//! What is written is read back.
ghost use Rattle.schedule_writer.specs.Laws.{LinesComeBack, LinesAddEvents, ShovelLinksComeBack};

/// The words of a written line state the event that it was written for, after any part of a schedule.
pub fn lines_come_back()
    ensures { LinesComeBack }
{}

/// A schedule's reader that comes to such a line adds the event, once, or finds that it is one too many.
pub fn lines_add_events()
    ensures { LinesAddEvents }
{}

/// The name of each shovel's link is one that a line can hold and the reader gives back.
pub fn shovel_links_come_back()
    ensures { ShovelLinksComeBack }
{}
