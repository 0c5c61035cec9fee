ghost use Rattle.proof_templates.specs.Templates.{TemplatesBegin, TemplatesFollow};

/// A thread inside the template of an ENTER, EXIT, WAIT, NOTIFY or BROADCAST asks what its point of the protocol asks.
/// After each answer that may be, it comes within few steps of its own to the next point, or behind the template; and
/// its process does what the step of the protocol carries: it enters, exits, waits, resumes or notifies with just that
/// step, and holds the monitors that are then in the thread's robust list.
/// From before a template the thread comes to its first point: another one where it enters a monitor that it holds.
pub fn templates_follow()
    ensures follows { TemplatesFollow }
    ensures begins { TemplatesBegin }
{}
