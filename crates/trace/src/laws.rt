// What the format comes to.
ghost use Rattle.trace.specs.Encoding.{ToldBack};

// Every record that the format can write is cut back to itself, whatever stands behind it.
pub fn written_is_read()
    ensures { ToldBack }
{}
